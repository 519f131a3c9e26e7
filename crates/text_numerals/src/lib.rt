// Words and numbers as they are written, byte by byte. Definitions and theorems: see specs/ and proofs/.
#![tactic(auto)]

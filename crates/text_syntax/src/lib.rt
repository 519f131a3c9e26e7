// The lines of a rules text: their tokens, their forms, and what 9 to 12, 24 and 25 ask of one. Definitions and theorems: see specs/ and proofs/.
#![tactic(auto)]

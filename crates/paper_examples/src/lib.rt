// The worked examples of documents 01 and 02, as theorems about the definitions: see specs/.
#![tactic(auto)]

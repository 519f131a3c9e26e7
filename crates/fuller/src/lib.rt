// Two registers of equal sizes, the second the fuller one: which readings and messages of the first stand in the second.
// Definitions and theorems alone, about what `op_read` and `op_inspect` answer.
#![tactic(auto)]

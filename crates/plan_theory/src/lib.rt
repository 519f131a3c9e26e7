// What records come to know, and when: facts, rounds and plans. Definitions and theorems alone; `plan_lines` has the code.
#![tactic(auto)]

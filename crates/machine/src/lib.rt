// The machine of document 01: what a step makes of the cells, and what a whole run makes of a register. See specs/.
#![tactic(auto)]

pub mod message;

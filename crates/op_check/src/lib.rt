// Programs: check, which reads a rules text into one, and the plan of a step.
#![tactic(auto)]

pub mod check;
pub mod step;

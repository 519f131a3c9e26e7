// Rules without their test, to the end of the line.
#![tactic(auto)]

pub mod action;

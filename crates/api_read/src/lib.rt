// A reading's answer as the numbers of the C interface.
#![tactic(auto)]

pub mod reading;

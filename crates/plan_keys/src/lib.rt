// Packed chains taken apart, and the keys of the lines of a plan.
#![tactic(auto)]

pub mod key;
pub mod word;

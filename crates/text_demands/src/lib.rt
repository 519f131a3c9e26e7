// What 9 to 12, 24 and 25 ask of tests and rules.
#![tactic(auto)]

pub mod rule;
pub mod test;

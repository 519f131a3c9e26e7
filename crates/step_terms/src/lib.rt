// What one record finds for the readings of a rule.
#![tactic(auto)]

pub mod term;

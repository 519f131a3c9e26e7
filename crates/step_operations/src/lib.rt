// Answers of expressions, operations on them, and their comparisons.
#![tactic(auto)]

pub mod comparison;
pub mod operation;

// The chains and numbers of a line, read token by token.
#![tactic(auto)]

pub mod chains;
pub mod term;

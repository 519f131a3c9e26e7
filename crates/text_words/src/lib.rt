// Tokens, and the words of a line, read from a place of it on.
#![tactic(auto)]

pub mod token;
pub mod word;

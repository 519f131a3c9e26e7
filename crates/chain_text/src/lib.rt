// The text of a chain, read letter by letter.
#![tactic(auto)]

pub mod letters;
pub mod text;

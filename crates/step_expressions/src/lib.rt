// What an expression comes to at one record. Its codes stand in lent arrays in postfix order (program specs Code); who has
// them is told one answer: unfilled, a value, or that a sum leaves the range.
#![tactic(auto)]

pub mod evaluate;
pub mod term;

// The codes of expressions, and what is asked of them, gathered from left to right. Promised to the readers above: the codes
// that are written for an expression that passes are those of its tree (proofs/Postfix, `codes-postfix`).
#![tactic(auto)]

pub mod code;
pub mod summary;

// The expressions of a line as the terms of a rule. Promised to the reader of lines: `expression::read` answers by lists of
// tokens alone (specs/Expression, `ExpressionAt`), and the codes of an expression that passes are those of its tree
// (proofs/Whole, `whole-postfix`).
#![tactic(auto)]

pub mod expression;
pub mod side;

// The next token of a line, read from a place on. Promised to the readers of forms: what they read are the tokens of the
// line, one after the other (proofs/Lexemes, `lexed`), so that they speak of lists of tokens, not of bytes or spaces.
#![tactic(auto)]

pub mod lexer;

// The expressions of a line with their codes: chains, terms, groups and what operators join, read token by token
// (specs/Reading, `ReadingAt`).
#![tactic(auto)]

pub mod reader;

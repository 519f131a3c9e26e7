// Expressions as the terms of a rule: one term by itself, several by their codes.
ghost use Rattle.std.specs.Prelude.{◌≡◌, ◌+◌, ◌≤◌, ◌<◌, length};
ghost use Rattle.register.specs.Shape.{Limits};
ghost use Rattle.text_codes.specs.Codes.{Roomy};
ghost use Rattle.text_sides.specs.Side.{operator_in, single_of, term_held, rule_held, codes_left, SideAt};

use crate::expression;
use program::code;
use program::rule::{Operator, Rule};
use program::term::Term;
use register::Sizes;
use text_codes::summary::Summary;

// The term of one code.
#[tactic(auto, unfolding(crate::specs::Side::single_of))]
pub fn single(code: u64) -> Term
    ensures { result ≡ single_of code }
{
    match code::kind(code) {
        0 => Term::Chain(code::chain(code)),
        _ => Term::Number(code::number(code)),
    }
}

// The term whose codes stand from..to.
#[tactic(auto, unfolding(crate::specs::Side::term_held))]
pub fn term_in(codes: &[u64], from: usize, to: usize) -> Term
    requires { (from < 65536) × (to < 65536) × (to ≤ length codes.now) }
    ensures { result ≡ term_held codes.now from to }
{
    if to == from + 1 {
        return single(codes[from]);
    }
    Term::Tree(from as u16, to as u16)
}

// The operator of a code.
#[tactic(auto, unfolding(crate::specs::Side::operator_in))]
pub fn operator_in(code: u64) -> Operator
    ensures { result ≡ operator_in code }
{
    match code::kind(code) {
        2 => Operator::Plus,
        3 => Operator::Minus,
        _ => Operator::Smaller,
    }
}

// `F[u] := X` for the X whose codes stand from..to: one operator on two terms is kept without codes.
#[tactic(auto, unfolding(crate::specs::Side::rule_held))]
pub fn set_in(codes: &[u64], field: u64, from: usize, to: usize) -> Rule
    requires { (from < 65536) × (to < 65536) × (to ≤ length codes.now) }
    ensures { result ≡ rule_held codes.now field from to }
{
    if to == from + 3 {
        let x = single(codes[from]);
        let y = single(codes[from + 1]);
        return Rule::Combine(field, operator_in(codes[from + 2]), x, y);
    }
    Rule::Set(field, term_in(codes, from, to))
}

// The number of codes behind an expression whose codes stand from..to: those of a term without codes are given back.
#[tactic(auto, unfolding(crate::specs::Side::codes_left))]
pub fn codes_left(from: usize, to: usize, size: usize) -> usize
    requires { from + size < 18446744073709551616 }
    ensures { result ≡ codes_left from to size }
{
    if to == from + size { from } else { to }
}

// The same behind `:=`, where one operator on two terms has no codes either.
pub fn codes_behind_set(from: usize, to: usize) -> usize
    requires { from < 65536 }
    ensures { result ≡ codes_left from (codes_left from to 1) 3 }
{
    codes_left(from, codes_left(from, to, 1), 3)
}

// What is asked of an expression, its term, the place behind it and the number of codes then.
#[derive(Clone, Copy)]
pub struct Side {
    pub seen: Summary,
    pub term: Term,
    pub end: usize,
    pub used: usize,
}

// The expression at `at`, as a term; or none stands there.
pub fn read(line: &[u8], at: usize, sizes: Sizes, codes: &mut [u64], count: usize) -> Option<Side>
    requires { Limits sizes × (at ≤ length line.now) × Roomy codes.old line.now at count × (length codes.old ≤ 65536) }
    ensures { SideAt sizes line.now at codes.old codes.new count result }
{
    let read = expression::read(line, at, sizes, codes, count)?;
    Some(Side {
        seen: read.seen,
        term: term_in(codes, count, read.used),
        end: read.end,
        used: codes_left(count, read.used, 1),
    })
}

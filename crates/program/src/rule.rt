// Rules and tests, as a program holds them.
use crate::term::Term;

// `+`, `-`, `<?`, by their kinds in the codes of expressions.
#[derive(Clone, Copy, Debug, PartialEq, Eq)]
pub enum Operator {
    Plus = 2,
    Minus = 3,
    Smaller = 4,
}

// `<?=`, `+=`
#[derive(Clone, Copy, Debug, PartialEq, Eq)]
pub enum Sort {
    Least,
    Total,
}

// `F[u] := X`; `F[u] := X + Y` or `F[u] := X - Y`; `remote F[C] <?= X` or `remote F[C] += X`: F by its field, C packed.
#[derive(Clone, Copy, Debug, PartialEq, Eq)]
pub enum Rule {
    Set(u64, Term),
    Combine(u64, Operator, Term, Term),
    Remote(Sort, u64, u64, Term),
}

// `<`, `==`, `!=`
#[derive(Clone, Copy, Debug, PartialEq, Eq)]
pub enum Comparison {
    Less,
    Equal,
    Unequal,
}

// "Before any of them may stand `if X < Y: `".
#[derive(Clone, Copy, Debug, PartialEq, Eq)]
pub enum Test {
    Always,
    When(Term, Comparison, Term),
}

// A rule with its test.
#[derive(Clone, Copy, Debug, PartialEq, Eq)]
pub struct Slot {
    pub test: Test,
    pub rule: Rule,
}

// Terms, as a program holds them.

// "A term X or Y is a chain or a number": a chain packed into one number, or a plain number; or an expression of several terms
// (M-105), whose codes stand from one place up to another in the arrays beside the rules.
#[derive(Clone, Copy, Debug, PartialEq, Eq)]
pub enum Term {
    Chain(u64),
    Number(i32),
    Tree(u16, u16),
}

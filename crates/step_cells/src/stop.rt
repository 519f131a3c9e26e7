// Where a step stops.

// The record and column where a sum or total is out of range: a step goes through, or stops there.
#[derive(Clone, Copy, Debug, PartialEq, Eq)]
pub struct Offence {
    pub row: usize,
    pub column: usize,
}

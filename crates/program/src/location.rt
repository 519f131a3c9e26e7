// Where the readings of a rule are found.
use crate::rule::Slot;

// A record's own number, its own cell of a field, or what a line of the step's plan holds for it.
#[derive(Clone, Copy, Debug, PartialEq, Eq)]
pub enum Location {
    Own,
    Cell(u8),
    Line(u8),
}

// The locations of the two terms of a test or of a rule, from left to right, C standing for the first of a remote rule. A number
// and an expression of several terms have the place of the chain `u`.
#[derive(Clone, Copy, Debug, PartialEq, Eq)]
pub struct Places {
    pub first: Location,
    pub second: Location,
}

// The locations of the terms of a rule with its test.
#[derive(Clone, Copy, Debug, PartialEq, Eq)]
pub struct Locations {
    pub test: Places,
    pub rule: Places,
}

// One place of a program: a rule with its test, and where its readings are found.
#[derive(Clone, Copy, Debug, PartialEq, Eq)]
pub struct Located {
    pub slot: Slot,
    pub at: Locations,
}

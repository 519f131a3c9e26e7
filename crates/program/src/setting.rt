// Where a step stands.

// A step outside loops, or in a loop on a field, whether first and whether last in it.
#[derive(Clone, Copy, Debug, PartialEq, Eq)]
pub enum Setting {
    Single,
    Looped(u64, bool, bool),
}

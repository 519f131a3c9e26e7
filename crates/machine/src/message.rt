// A remote write on its way.
use program::rule::Sort;

// To the cell of a record and a field.
#[derive(Clone, Copy)]
pub struct Message {
    pub sort: Sort,
    pub target: usize,
    pub field: u64,
    pub amount: i32,
}

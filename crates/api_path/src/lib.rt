// A path's hops as the four arrays of the C interface.
#![tactic(auto)]

ghost use Rattle.std.specs.Prelude.{◌≡◌};
ghost use Rattle.register.specs.Cells.{value_of, mark_of};
ghost use Rattle.chain_path.specs.Path.{hops_of, HoldsPath};
ghost use Rattle.api_path.specs.PathArrays.{PathArrays};

use chain_path::Path;
use register::cells::Cell;

// The value of a cell, 0 where it is missing.
#[tactic(auto, unfolding(register::specs::Cells::value_of))]
fn value_of(cell: Cell) -> i64
    ensures { result ≡ value_of cell }
{
    match cell {
        Cell::Missing => 0,
        // An arm each: rattle proves no arm of two patterns that bind a signed number.
        Cell::Measured(value) => i64::from(value),
        Cell::WorkedOut(value) => i64::from(value),
    }
}

// The mark of a cell, as the file has it: each case has one of its own.
#[tactic(auto, unfolding(register::specs::Cells::mark_of))]
fn mark_of(cell: Cell) -> u8
    ensures { result ≡ mark_of cell }
{
    match cell {
        Cell::Missing => 0,
        Cell::Measured(_) => 1,
        Cell::WorkedOut(_) => 2,
    }
}

// The four arrays of a path's hops.
pub fn fill(
    path: &Path,
    records: &mut [u64; 16],
    fields: &mut [u8; 16],
    values: &mut [i64; 16],
    marks: &mut [u8; 16],
)
    requires { HoldsPath path.now (hops_of path.now) }
    ensures { PathArrays (hops_of path.now) records.new fields.new values.new marks.new }
{
    *records = [0; 16];
    *fields = [0; 16];
    *values = [0; 16];
    *marks = [0; 16];
    for (i, hop) in path.listed().iter().enumerate() {
        records[i] = hop.u as u64;
        fields[i] = api_plan::letter(hop.field as u64);
        values[i] = value_of(hop.cell);
        marks[i] = mark_of(hop.cell);
    }
}

// The working cells in the columns that a step writes become the register's, where all are in range.
#![tactic(auto)]

ghost use Rattle.std.specs.Prelude.{◌+◌, ◌*◌, ◌≤◌, ◌<◌, length, ◌≡◌};
ghost use Rattle.register.specs.File.{width, cell_count};
ghost use Rattle.register.specs.Shape.{Limits};
ghost use Rattle.machine.specs.Step.{in_record, total_column, total_offence};
ghost use Rattle.step_cells.specs.Work.{Room, CanonicalCells};
ghost use Rattle.step_commit.specs.Committed.{value_in_range, offence_of, OneCommitted, ColumnCommitted, Committed};

use chain::follow;
use register::{Sizes, cells};
use step_cells::stop::Offence;

// Cell j, its value and mark as they stand, where it is in range.
fn commit_cell(
    out: &mut [u8],
    values: &[i64],
    marks: &[u8],
    sizes: Sizes,
    base: usize,
    j: usize,
) -> Option<()>
    requires { Limits sizes × (length out.old ≡ 12 + 5 * cell_count sizes)
        × Room base (cell_count sizes) values.now marks.now × (j < cell_count sizes) × CanonicalCells base (cell_count sizes) values.now marks.now }
    ensures { OneCommitted sizes base j values.now marks.now out.old out.new result }
{
    let value = integers::in_range(values[base + j])?;
    cells::put_cell(out, sizes, j, value, marks[base + j]);
    Some(())
}

// The cells of one column, up to one that is out of range.
fn commit_column(
    out: &mut [u8],
    values: &[i64],
    marks: &[u8],
    sizes: Sizes,
    base: usize,
    column: usize,
) -> Option<()>
    requires { Limits sizes × (length out.old ≡ 12 + 5 * cell_count sizes)
        × Room base (cell_count sizes) values.now marks.now × (column < width sizes) × CanonicalCells base (cell_count sizes) values.now marks.now }
    ensures { ColumnCommitted sizes base column values.now marks.now out.old out.new result }
{
    for u in 0..sizes.records {
        let j = register::cell_index(sizes, u, column);
        commit_cell(out, values, marks, sizes, base, j)?;
    }
    Some(())
}

// The first column of record u whose working cell is out of range.
fn record_offence(values: &[i64], sizes: Sizes, base: usize, u: usize) -> Result<(), Offence>
    requires { Limits sizes × (base ≤ 266240) × (base + cell_count sizes ≤ length values.now) × (u < sizes.records) }
    ensures { offence_of result ≡ in_record u (total_column sizes (value_in_range base values.now) u) }
{
    for column in 0..sizes.references + sizes.measures {
        let j = register::cell_index(sizes, u, column);
        if integers::in_range(values[base + j]).is_none() {
            return Err(Offence { row: u, column });
        }
    }
    Ok(())
}

// The first record with such a column.
fn first_offence(values: &[i64], sizes: Sizes, base: usize) -> Result<(), Offence>
    requires { Limits sizes × (base ≤ 266240) × (base + cell_count sizes ≤ length values.now) }
    ensures { offence_of result ≡ total_offence sizes (value_in_range base values.now) }
{
    for row in 0..sizes.records {
        record_offence(values, sizes, base, row)?;
    }
    Ok(())
}

// The columns of the fields that a step writes: no other has changed. They are written column by column; which place is the first to
// be out of range is looked for only where one is.
pub fn commit(
    out: &mut [u8],
    values: &[i64],
    marks: &[u8],
    sizes: Sizes,
    base: usize,
    fields: [bool; 16],
) -> Result<(), Offence>
    requires { Limits sizes × (length out.old ≡ 12 + 5 * cell_count sizes)
        × Room base (cell_count sizes) values.now marks.now × CanonicalCells base (cell_count sizes) values.now marks.now }
    ensures { Committed sizes base fields values.now marks.now out.old out.new result }
{
    for column in 0..sizes.references + sizes.measures {
        if fields[follow::field_at(sizes, column)]
            && commit_column(out, values, marks, sizes, base, column).is_none()
        {
            return first_offence(values, sizes, base);
        }
    }
    Ok(())
}

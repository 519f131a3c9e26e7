// Columns of a register's cells in the scratch buffers.
ghost use Rattle.std.specs.Prelude.{◌≡◌, true, ◌+◌, ◌≤◌, length};
ghost use Rattle.register.specs.View.{cells_in};
ghost use Rattle.chain.specs.Word.{has_field, read_cell};
ghost use Rattle.scratch.specs.Places.{StoredFrom};

use chain::follow;
use register::cells::Cells;

// Copies the column of a field to the places from `at` on.
pub fn copy_column(cells: &Cells<'_>, values: &mut [i64], marks: &mut [u8], at: usize, field: usize)
    requires { (has_field cells.now.sizes field ≡ true)
        × (at + cells.now.sizes.records ≤ length values.old) × (at + cells.now.sizes.records ≤ length marks.old) }
    ensures { StoredFrom at cells.now.sizes.records (λ u. read_cell cells.now.sizes (cells_in cells.now) u field)
        values.old marks.old values.new marks.new }
{
    let sizes = cells.sizes;
    let column = follow::column(sizes, field);
    for u in 0..sizes.records {
        crate::copy_cell(
            cells.values,
            cells.marks,
            register::cell_index(sizes, u, column),
            values,
            marks,
            at + u,
        );
    }
}

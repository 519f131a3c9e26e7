// Following a chain through a register's cells.
ghost use Rattle.std.specs.Prelude.{◌≡◌, true, ◌≤◌, ◌<◌};
ghost use Rattle.register.specs.View.{cells_in};
ghost use Rattle.register.specs.File.{width, cell_count, cell_index};
ghost use Rattle.register.specs.Shape.{Limits, Valid};
ghost use Rattle.chain.specs.Word.{has_field, column as columnOf, field_at, field_cell, read_cell, readable, unpack, value_at_record};

use crate::{packed, reading};
use register::Sizes;
use register::cells::{Cell, Cells};

// Where a field stands in a record.
#[tactic(auto, unfolding(crate::specs::Word::column, crate::specs::Word::is_reference))]
pub fn column(sizes: Sizes, field: usize) -> usize
    requires { (sizes.references ≤ 8) × (field < 16) }
    ensures { result ≡ columnOf sizes field }
{
    if field < 8 {
        field
    } else {
        sizes.references + (field - 8)
    }
}

// The field of a column.
#[tactic(auto, unfolding(crate::specs::Word::field_at, register::specs::File::width))]
pub fn field_at(sizes: Sizes, column: usize) -> usize
    requires { Limits sizes × (column < width sizes) }
    ensures { (result ≡ field_at sizes column) × (result < 16) }
{
    if column < sizes.references {
        column
    } else {
        8 + (column - sizes.references)
    }
}

// Which cell of the register is that of record u and a field.
fn field_index(sizes: Sizes, u: usize, field: usize) -> usize
    requires { Limits sizes × (u < sizes.records) × (has_field sizes field ≡ true) }
    ensures { (result ≡ cell_index sizes u (columnOf sizes field)) × (result < cell_count sizes) }
{
    register::cell_index(sizes, u, column(sizes, field))
}

// The cell of record u and a field.
pub fn field_cell(cells: &Cells<'_>, u: usize, field: usize) -> Cell
    requires { (u < cells.now.sizes.records) × (has_field cells.now.sizes field ≡ true) }
    ensures { result ≡ field_cell cells.now.sizes (cells_in cells.now) u field }
{
    cells.at(field_index(cells.sizes, u, field))
}

// What is read of the cell of record u and a field.
pub fn read_cell(cells: &Cells<'_>, u: usize, field: usize) -> Option<i32>
    requires { (u < cells.now.sizes.records) × (has_field cells.now.sizes field ≡ true) }
    ensures { result ≡ read_cell cells.now.sizes (cells_in cells.now) u field }
{
    reading::reading_at(
        cells.values,
        cells.marks,
        field_index(cells.sizes, u, field),
    )
}

// The value of a packed chain at record u.
pub fn follow(cells: &Cells<'_>, chain: u64, u: usize) -> Option<i32>
    requires { Valid cells.now.sizes (cells_in cells.now) × (u < cells.now.sizes.records) × (readable cells.now.sizes (unpack chain) ≡ true) }
    ensures { result ≡ value_at_record cells.now.sizes (cells_in cells.now) (unpack chain) u }
{
    let mut reading = Some(integers::of_index(u));
    let mut rest = chain;
    while rest != 0 {
        let field = packed::first_hop(rest) as usize;
        reading = read_cell(cells, integers::index(reading?), field);
        rest = packed::rest_hops(rest);
    }
    reading
}

// The readings of one chain by every record, found by following references: the places of a plan line.
#![tactic(auto)]

ghost use Rattle.std.specs.Prelude.{◌≡◌, true, [], ◌∷◌, ◌+◌, ◌*◌, ◌≤◌, ◌<◌, pos, length, get_or};
ghost use Rattle.std.specs.Int.{w32};
ghost use Rattle.std.proofs.Common.{SFits};
ghost use Rattle.register.specs.View.{cells_in};
ghost use Rattle.register.specs.File.{width};
ghost use Rattle.register.specs.Shape.{Valid};
ghost use Rattle.chain.specs.Word.{has_field, readable, unpack, value_at_record, refers_to};
ghost use Rattle.scratch.specs.Places.{place_at, StoredFrom};
ghost use Rattle.gather_hops.specs.Hopped.{referred, Referring, Hopped};

use chain::{follow, packed};
use register::cells::Cells;
use scratch;

// Place j one hop on: what is read in a column of the record that it names; where nothing is read it stays so.
fn hop(cells: &Cells<'_>, values: &mut [i64], marks: &mut [u8], j: usize, column: usize)
    requires { (column < width cells.now.sizes) × (j < length values.old) × (j < length marks.old)
        × SFits w32 (get_or values.old j (pos 0)) × (refers_to cells.now.sizes.records (place_at values.old marks.old j) ≡ true) }
    ensures { StoredFrom j 1 (λ _. referred cells.now.sizes (cells_in cells.now) column (place_at values.old marks.old j))
        values.old marks.old values.new marks.new }
{
    let Some(number) = scratch::read_at(values, marks, j) else {
        return;
    };
    let v = integers::index(number);
    scratch::copy_cell(
        cells.values,
        cells.marks,
        register::cell_index(cells.sizes, v, column),
        values,
        marks,
        j,
    );
}

// The places of a line, from `first` on, one hop on.
fn advance(cells: &Cells<'_>, values: &mut [i64], marks: &mut [u8], first: usize, field: usize)
    requires { (has_field cells.now.sizes field ≡ true)
        × (first + cells.now.sizes.records ≤ length values.old) × (first + cells.now.sizes.records ≤ length marks.old)
        × Referring cells.now.sizes first values.old marks.old }
    ensures { Hopped cells.now.sizes (cells_in cells.now) field first cells.now.sizes.records
        values.old marks.old values.new marks.new }
{
    let column = follow::column(cells.sizes, field);
    for u in 0..cells.sizes.records {
        hop(cells, values, marks, first + u, column);
    }
}

// What record u reads by two hops.
fn two_hops(cells: &Cells<'_>, u: usize, field: usize, next: usize) -> Option<i32>
    requires { Valid cells.now.sizes (cells_in cells.now) × (u < cells.now.sizes.records) × (readable cells.now.sizes (field ∷ next ∷ []) ≡ true) }
    ensures { result ≡ value_at_record cells.now.sizes (cells_in cells.now) (field ∷ next ∷ []) u }
{
    let v = integers::index(follow::read_cell(cells, u, field)?);
    follow::read_cell(cells, v, next)
}

// The places of a line, from `first` on, two hops on from the records themselves.
fn begin_line(
    cells: &Cells<'_>,
    values: &mut [i64],
    marks: &mut [u8],
    first: usize,
    field: usize,
    next: usize,
)
    requires { Valid cells.now.sizes (cells_in cells.now) × (readable cells.now.sizes (field ∷ next ∷ []) ≡ true)
        × (first + cells.now.sizes.records ≤ length values.old) × (first + cells.now.sizes.records ≤ length marks.old) }
    ensures { StoredFrom first cells.now.sizes.records (value_at_record cells.now.sizes (cells_in cells.now) (field ∷ next ∷ []))
        values.old marks.old values.new marks.new }
{
    for u in 0..cells.sizes.records {
        let reading = two_hops(cells, u, field, next);
        scratch::put_reading(values, marks, first + u, reading);
    }
}

// The places of line i: what each record reads for a chain of two or more hops.
pub fn fill_line(cells: &Cells<'_>, values: &mut [i64], marks: &mut [u8], i: usize, chain: u64)
    requires { Valid cells.now.sizes (cells_in cells.now) × (readable cells.now.sizes (unpack chain) ≡ true) × (2 ≤ length (unpack chain))
        × (i * cells.now.sizes.records + cells.now.sizes.records ≤ length values.old) × (i * cells.now.sizes.records + cells.now.sizes.records ≤ length marks.old) }
    ensures { StoredFrom (i * cells.now.sizes.records) cells.now.sizes.records (value_at_record cells.now.sizes (cells_in cells.now) (unpack chain))
        values.old marks.old values.new marks.new }
{
    let first = i * cells.sizes.records;
    let field = packed::first_hop(chain) as usize;
    let behind = packed::rest_hops(chain);
    let second = packed::first_hop(behind) as usize;
    begin_line(cells, values, marks, first, field, second);
    let mut rest = packed::rest_hops(behind);
    while rest != 0 {
        let next = packed::first_hop(rest) as usize;
        advance(cells, values, marks, first, next);
        rest = packed::rest_hops(rest);
    }
}

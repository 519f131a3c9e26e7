// The working cells: a part of the scratch buffers from place `base` on, behind the places of the plan's lines.
#![tactic(auto)]

pub mod stop;

ghost use Rattle.std.specs.Prelude.{◌+◌, ◌≤◌, ◌<◌, ◌≡◌, true, length};
ghost use Rattle.std.specs.Int.Signed.{mag};
ghost use Rattle.register.specs.Cells.{value_of};
ghost use Rattle.register.specs.File.{cell_count, cell_index, cells_of_file};
ghost use Rattle.register.specs.Shape.{Limits, Register};
ghost use Rattle.chain.specs.Word.{has_field, column as columnOf};
ghost use Rattle.scratch.specs.Places.{stored_at};
ghost use Rattle.machine.specs.Remote.{merged};
ghost use Rattle.program.specs.declared.rule.Sort.TheVariants.{Least, Total};
ghost use Rattle.step_cells.specs.Work.{Room, HoldsCells, Put, Same};

use chain::follow;
use program::rule::Sort;
use register::Sizes;
use register::cells::Cells;
use scratch;

// They begin as the cells of the register in `out`.
pub fn begin(out: &[u8], values: &mut [i64], marks: &mut [u8], sizes: Sizes, base: usize)
    requires { Register sizes out.now × Room base (cell_count sizes) values.old marks.old }
    ensures holds_cells { HoldsCells base (cells_of_file sizes out.now) values.new marks.new }
    ensures same { Same base values.old marks.old values.new marks.new }
{
    let cells = Cells::of(out, sizes);
    for j in 0..cells.marks.len() {
        scratch::copy_cell(cells.values, cells.marks, j, values, marks, base + j);
    }
}

// The place of the working cell of record u and a field.
pub fn place(sizes: Sizes, base: usize, u: usize, field: u64) -> usize
    requires { Limits sizes × (u < sizes.records) × (has_field sizes field ≡ true) × (base ≤ 266240) }
    ensures { result ≡ base + cell_index sizes u (columnOf sizes field) }
{
    base + register::cell_index(sizes, u, follow::column(sizes, field as usize))
}

// `<?=` keeps the smaller, and fills a missing cell: either is worked out. One that is not smaller leaves value and mark.
fn keep_least(values: &mut [i64], marks: &mut [u8], j: usize, amount: i32)
    requires { (j < length values.old) × (j < length marks.old) }
    ensures { Put j (merged Least (stored_at values.old marks.old j) amount) values.old marks.old values.new marks.new }
{
    if marks[j] != 0 && !integers::is_below(amount, values[j]) {
        return;
    }
    scratch::put(values, marks, j, integers::widen(amount), 2);
}

// `+=` adds to a cell that has a value, which is worked out then, also where the amount is 0; a missing cell stays missing.
fn add_total(values: &mut [i64], marks: &mut [u8], j: usize, amount: i32)
    requires { (j < length values.old) × (j < length marks.old) × (mag (value_of (stored_at values.old marks.old j)) < 4611686018427387904) }
    ensures { Put j (merged Total (stored_at values.old marks.old j) amount) values.old marks.old values.new marks.new }
{
    if marks[j] == 0 {
        return;
    }
    let total = integers::increase(values[j], amount);
    scratch::put(values, marks, j, total, 2);
}

// One remote write.
pub fn deliver(values: &mut [i64], marks: &mut [u8], j: usize, sort: Sort, amount: i32)
    requires { (j < length values.old) × (j < length marks.old) × (mag (value_of (stored_at values.old marks.old j)) < 4611686018427387904) }
    ensures { Put j (merged sort (stored_at values.old marks.old j) amount) values.old marks.old values.new marks.new }
{
    match sort {
        Sort::Least => keep_least(values, marks, j, amount),
        Sort::Total => add_total(values, marks, j, amount),
    }
}

// Cells, read from and written to the parts of a register file.
ghost use Rattle.std.specs.Prelude.{◌≡◌, ◌+◌, ◌*◌, ◌≤◌, ◌<◌, length, set};
ghost use Rattle.register.specs.Cells.{cell_at};
ghost use Rattle.register.specs.File.{cell_count, values_part, marks_part, put_marked};
ghost use Rattle.register.specs.Shape.{Limits, Parts};
ghost use Rattle.std.proofs.lemmas.List.Edits.{sets};
ghost use Rattle.integers.specs.Bytes.{value_bytes};

use crate::Sizes;

// Document 01's cell: unfilled, or filled with a value that was measured or (M-107) worked out by a rule.
#[derive(Clone, Copy)]
pub enum Cell {
    Missing,
    Measured(i32),
    WorkedOut(i32),
}

// The cells of a register: its sizes, and the two parts of its file behind them.
#[derive(Clone, Copy)]
pub struct Cells<'a> {
    pub sizes: Sizes,
    pub values: &'a [u8],
    pub marks: &'a [u8],
    pub ghost parts: { Parts sizes values.now marks.now },
}

impl<'a> Cells<'a> {
    ghost use Rattle.std.specs.Prelude.{get_or};
    ghost use Rattle.register.specs.View.{cells_in};
    ghost use Rattle.register.specs.declared.cells.Cell.TheVariants.{Missing};

    // Those of a file with these sizes.
    pub fn of(file: &'a [u8], sizes: Sizes) -> Cells<'a>
        requires { Limits sizes × (length file.now ≡ 12 + 5 * cell_count sizes) }
        ensures { (result.sizes ≡ sizes) × (result.values.now ≡ values_part sizes file.now) × (result.marks.now ≡ marks_part sizes file.now) }
    {
        Cells {
            sizes,
            values: values_part(file, sizes),
            marks: marks_part(file, sizes),
        }
    }

    // Cell j.
    pub fn at(&self, j: usize) -> Cell
        requires { j < cell_count self.now.sizes }
        ensures { result ≡ get_or (cells_in self.now) j Missing }
    {
        cell_at(self.values, self.marks, j)
    }
}

// The values, a part of the file behind the sizes.
pub fn values_part(file: &[u8], sizes: Sizes) -> &[u8]
    requires { Limits sizes × (length file.now ≡ 12 + 5 * cell_count sizes) }
    ensures { result.now ≡ values_part sizes file.now }
{
    let split = 12 + 4 * crate::cell_count(sizes);
    &file[12..split]
}

// The marks, the part of the file behind the values.
pub fn marks_part(file: &[u8], sizes: Sizes) -> &[u8]
    requires { Limits sizes × (length file.now ≡ 12 + 5 * cell_count sizes) }
    ensures { result.now ≡ marks_part sizes file.now }
{
    let split = 12 + 4 * crate::cell_count(sizes);
    &file[split..]
}

// Cell j of the two arrays.
#[tactic(auto, unfolding(crate::specs::Cells::cell_at, crate::specs::Cells::cell_of))]
pub fn cell_at(cells: &[u8], filled: &[u8], j: usize) -> Cell
    requires { (4 * j + 4 ≤ length cells.now) × (j < length filled.now) }
    ensures { result ≡ cell_at cells.now filled.now j }
{
    let mark = filled[j];
    if mark == 0 {
        return Cell::Missing;
    }
    let value = integers::value_at(cells, 4 * j);
    if mark == 1 {
        return Cell::Measured(value);
    }
    Cell::WorkedOut(value)
}

// Cell j of a file, from a value and its mark: the bytes of the value times the factor of its mark, and no branch on it.
pub fn put_cell(file: &mut [u8], sizes: Sizes, j: usize, value: i32, mark: u8)
    requires { Limits sizes × (length file.old ≡ 12 + 5 * cell_count sizes) × (j < cell_count sizes) × (mark ≤ 2) }
    ensures { file.new ≡ put_marked sizes j value mark file.old }
{
    let split = 12 + 4 * crate::cell_count(sizes);
    put(file, split, j, integers::times_mark(value, mark), mark);
}

fn put(file: &mut [u8], split: usize, j: usize, value: i32, mark: u8)
    requires { (12 + 4 * j + 4 ≤ split) × (split + j < length file.old) }
    ensures { file.new ≡ set (sets file.old (12 + 4 * j) (value_bytes value)) (split + j) mark }
{
    integers::put_value(&mut file[12..split], 4 * j, value);
    let filled = &mut file[split..];
    filled[j] = mark;
}

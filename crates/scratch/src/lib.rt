// Places of the scratch buffers (document 01's working arrays), each a value and a mark.
#![tactic(auto)]

pub mod column;

ghost use Rattle.std.specs.Prelude.{◌≡◌, ◌+◌, ◌*◌, ◌≤◌, ◌<◌, pos, length, get_or, set};
ghost use Rattle.std.specs.Int.{w32};
ghost use Rattle.std.proofs.Common.{SFits};
ghost use Rattle.integers.specs.Bytes.{value_at};
ghost use Rattle.chain.specs.Word.{reading_value};
ghost use Rattle.scratch.specs.Places.{place_at, reading_mark};

// What is read at place j.
pub fn read_at(values: &[i64], marks: &[u8], j: usize) -> Option<i32>
    requires { (j < length values.now) × (j < length marks.now) × SFits w32 (get_or values.now j (pos 0)) }
    ensures { result ≡ place_at values.now marks.now j }
{
    if marks[j] == 0 {
        return None;
    }
    Some(integers::narrow(values[j]))
}

// Stores a value and a mark at place j.
pub fn put(values: &mut [i64], marks: &mut [u8], j: usize, value: i64, mark: u8)
    requires { (j < length values.old) × (j < length marks.old) }
    ensures { (values.new ≡ set values.old j value) × (marks.new ≡ set marks.old j mark) }
{
    values[j] = value;
    marks[j] = mark;
}

// Makes place j missing: value 0 and mark 0. The mark first: with the order of `put` the compiler makes one path of the two, on
// which both numbers are chosen.
pub fn clear(values: &mut [i64], marks: &mut [u8], j: usize)
    requires { (j < length values.old) × (j < length marks.old) }
    ensures { (values.new ≡ set values.old j (pos 0)) × (marks.new ≡ set marks.old j 0) }
{
    marks[j] = 0;
    values[j] = 0;
}

// Cell j of a register's two arrays, copied to place k: its value and its mark, whatever they are.
pub fn copy_cell(
    cells: &[u8],
    filled: &[u8],
    j: usize,
    values: &mut [i64],
    marks: &mut [u8],
    k: usize,
)
    requires { (4 * j + 4 ≤ length cells.now) × (j < length filled.now) × (k < length values.old) × (k < length marks.old) }
    ensures { (values.new ≡ set values.old k (value_at cells.now (4 * j)))
        × (marks.new ≡ set marks.old k (get_or filled.now j 0)) × SFits w32 (value_at cells.now (4 * j)) }
{
    put(
        values,
        marks,
        k,
        integers::widen(integers::value_at(cells, 4 * j)),
        filled[j],
    );
}

// A missing reading has value 0 and mark 0.
pub fn put_reading(values: &mut [i64], marks: &mut [u8], j: usize, reading: Option<i32>)
    requires { (j < length values.old) × (j < length marks.old) }
    ensures { (values.new ≡ set values.old j (reading_value reading))
        × (marks.new ≡ set marks.old j (reading_mark reading)) × SFits w32 (reading_value reading) }
{
    match reading {
        None => clear(values, marks, j),
        Some(value) => put(values, marks, j, integers::widen(value), 1),
    }
}

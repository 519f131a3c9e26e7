// The messages (document 01's letters) of one plan line: for each origin what the writer knows, or none.
#![tactic(auto)]

ghost use Rattle.std.specs.Prelude.{◌≡◌, ◌≤◌, ◌<◌};
ghost use Rattle.register.specs.View.{cells_in};
ghost use Rattle.gather_line.specs.Written.{places_of, writer_at, known_at, message_at, ReadHeld, BackHeld, LineReady, LineSent};

use chain::follow;
use register::Sizes;
use register::cells::Cells;
use scratch;

// The line of a need that has none: a number, and no Option, since a plan's arrays, which the C interface hands out, hold it so.
const NO_LINE: usize = 64;

// Who writes for origin u: u itself, or the addressee of the message of line `back`; missing where that was not sent.
fn writer(values: &[i64], marks: &[u8], sizes: Sizes, u: usize, back: usize) -> Option<i32>
    requires { (sizes.records ≤ 4096) × (u < sizes.records) × BackHeld sizes values.now marks.now back }
    ensures { result ≡ writer_at (places_of sizes values.now marks.now) back u }
{
    if back == NO_LINE {
        return Some(integers::of_index(u));
    }
    scratch::read_at(values, marks, back * sizes.records + u)
}

// What record v knows of a word: its own cell of a field where no line reads it, otherwise what the message of line `read`
// told it.
fn known(
    cells: &Cells<'_>,
    values: &[i64],
    marks: &[u8],
    v: usize,
    read: usize,
    field: usize,
) -> Option<i32>
    requires { (v < cells.now.sizes.records) × ReadHeld cells.now.sizes values.now marks.now read field }
    ensures { result ≡ known_at cells.now.sizes (cells_in cells.now)
        (places_of cells.now.sizes values.now marks.now) read field v }
{
    if read == NO_LINE {
        return follow::read_cell(cells, v, field);
    }
    scratch::read_at(values, marks, read * cells.sizes.records + v)
}

// The message for origin u: what its writer knows.
fn message(
    cells: &Cells<'_>,
    values: &[i64],
    marks: &[u8],
    u: usize,
    back: usize,
    read: usize,
    field: usize,
) -> Option<i32>
    requires { (u < cells.now.sizes.records) × BackHeld cells.now.sizes values.now marks.now back
        × ReadHeld cells.now.sizes values.now marks.now read field }
    ensures { result ≡ message_at cells.now.sizes (cells_in cells.now)
        (places_of cells.now.sizes values.now marks.now) back read field u }
{
    let number = writer(values, marks, cells.sizes, u, back)?;
    known(cells, values, marks, integers::index(number), read, field)
}

// The messages of line i, at its places; how many are sent, also those to oneself.
pub fn exchange(
    cells: &Cells<'_>,
    values: &mut [i64],
    marks: &mut [u8],
    i: usize,
    back: usize,
    read: usize,
    field: usize,
) -> usize
    requires { LineReady cells.now.sizes values.old marks.old i back read field }
    ensures { LineSent cells.now.sizes (message_at cells.now.sizes (cells_in cells.now)
        (places_of cells.now.sizes values.old marks.old) back read field) i cells.now.sizes.records
        values.old marks.old values.new marks.new result }
{
    let first = i * cells.sizes.records;
    let mut sent = 0;
    for u in 0..cells.sizes.records {
        let reading = message(cells, values, marks, u, back, read, field);
        sent += usize::from(reading.is_some());
        scratch::put_reading(values, marks, first + u, reading);
    }
    sent
}

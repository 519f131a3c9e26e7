// What is read of a register's cells.
ghost use Rattle.std.specs.Prelude.{◌≡◌, ◌+◌, ◌*◌, ◌≤◌, ◌<◌, length};
ghost use Rattle.register.specs.Cells.{cell_at};
ghost use Rattle.chain.specs.Word.{read_of};

use register::cells::Cell;

// What is read of a stored cell.
#[tactic(auto, unfolding(crate::specs::Word::read_of))]
pub fn read_of(cell: Cell) -> Option<i32>
    ensures { result ≡ read_of cell }
{
    match cell {
        Cell::Missing => None,
        Cell::Measured(value) => Some(value),
        Cell::WorkedOut(value) => Some(value),
    }
}

// What is read of cell j of the two arrays. It does not matter which mark a filled cell has.
#[tactic(auto, unfolding(crate::specs::Word::read_of, register::specs::Cells::cell_at, register::specs::Cells::cell_of))]
pub fn reading_at(cells: &[u8], filled: &[u8], j: usize) -> Option<i32>
    requires { (4 * j + 4 ≤ length cells.now) × (j < length filled.now) }
    ensures { result ≡ read_of (cell_at cells.now filled.now j) }
{
    if filled[j] == 0 {
        return None;
    }
    Some(integers::value_at(cells, 4 * j))
}

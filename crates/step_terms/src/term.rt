// What a record finds at a location.
ghost use Rattle.std.specs.Prelude.{◌≡◌, ◌<◌};
ghost use Rattle.register.specs.View.{cells_in};
ghost use Rattle.step_terms.specs.Found.{found_at, Reaches};

use chain::follow;
use program::location::Location;
use register::cells::Cells;
use scratch;

// What record u finds: its own number, its own cell, or what a plan line holds for it.
#[tactic(auto, unfolding(crate::specs::Found::found_at))]
pub fn found_at(
    cells: &Cells<'_>,
    values: &[i64],
    marks: &[u8],
    u: usize,
    at: Location,
) -> Option<i32>
    requires { (u < cells.now.sizes.records) × Reaches cells.now.sizes values.now marks.now u at }
    ensures { result ≡ found_at cells.now.sizes (cells_in cells.now) values.now marks.now u at }
{
    match at {
        Location::Own => Some(integers::of_index(u)),
        Location::Cell(field) => follow::read_cell(cells, u, field as usize),
        Location::Line(line) => {
            scratch::read_at(values, marks, line as usize * cells.sizes.records + u)
        }
    }
}

// The direct machine's readings: the places of a plan's Read lines, filled by following references.
#![tactic(auto)]

ghost use Rattle.register.specs.View.{cells_in};
ghost use Rattle.register.specs.Shape.{Valid};
ghost use Rattle.plan_lines.specs.Held.{facts};
ghost use Rattle.gather_follow.specs.Filled.{FollowReady, Filled};

use gather_hops;
use plan_keys::key;
use plan_keys::key::Kind;
use plan_lines::Plan;
use register::cells::Cells;

// The places of the Read lines of a plan that a rule reads; those of the others stay as they are.
pub fn fill(
    cells: &Cells<'_>,
    values: &mut [i64],
    marks: &mut [u8],
    plan: &Plan,
    wanted: &[bool; 64],
)
    requires { Valid cells.now.sizes (cells_in cells.now) × FollowReady cells.now.sizes plan.now wanted.now values.old marks.old }
    ensures { Filled cells.now.sizes (cells_in cells.now) (facts plan.now)
        wanted.now plan.now.count values.old marks.old values.new marks.new }
{
    for i in 0..plan.count {
        if wanted[i] {
            let line = plan.keys[i];
            if let Kind::Read = key::kind_of(line) {
                gather_hops::fill_line(cells, values, marks, i, key::chain_of(line));
            }
        }
    }
}

// The lines of a plan after round t, as document 01's look shows them.
#![tactic(auto)]

ghost use Rattle.std.specs.Prelude.{◌≡◌, ◌+◌, ◌*◌, ◌≤◌, length};
ghost use Rattle.register.specs.File.{cell_count, cells_of_file};
ghost use Rattle.register.specs.Shape.{Valid};
ghost use Rattle.plan_lines.specs.Held.{facts};
ghost use Rattle.gather_exchanges.specs.Lines.{StepPlanned};
ghost use Rattle.op_show.specs.Shown.{Shown};

use gather_exchanges;
use plan_lines::Plan;
use register::Sizes;
use register::cells::Cells;

// Shows the messages of rounds 1 to t, or of all where t is past the last, at the places of the plan's lines.
pub fn show(file: &[u8], values: &mut [i64], marks: &mut [u8], sizes: Sizes, plan: &Plan, t: u16)
    requires { Valid sizes (cells_of_file sizes file.now) × (length file.now ≡ 12 + 5 * cell_count sizes) × StepPlanned sizes plan.now
        × (plan.now.count * sizes.records ≤ length values.old) × (plan.now.count * sizes.records ≤ length marks.old) }
    ensures { Shown sizes (cells_of_file sizes file.now) (facts plan.now) t
        values.old marks.old values.new marks.new }
{
    let cells = Cells::of(file, sizes);
    let last = t.min(u16::from(plan.last_round())) as u8;
    gather_exchanges::clear(values, marks, plan.count * sizes.records);
    gather_exchanges::exchange_to(&cells, values, marks, plan, last);
}

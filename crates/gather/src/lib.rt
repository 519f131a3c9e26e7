// The readings of a step: the places of its plan's Read lines, filled by following references or by messages.
#![tactic(auto)]

ghost use Rattle.register.specs.View.{cells_in};
ghost use Rattle.register.specs.File.{cells_of_file};
ghost use Rattle.register.specs.Shape.{Register, Valid};
ghost use Rattle.gather_exchanges.specs.Lines.{PlanReady};
ghost use Rattle.gather.specs.Gathered.{GatherReady, AllExchanged, Gathered};

use crate::counts::Counts;
use gather_exchanges;
use gather_follow;
use machine_messages::Machine;
use plan_lines::Plan;
use register::Sizes;
use register::cells::Cells;

pub mod counts;

// The exchanges of all rounds of a plan; what they took.
fn exchange_all(cells: &Cells<'_>, values: &mut [i64], marks: &mut [u8], plan: &Plan) -> Counts
    requires { Valid cells.now.sizes (cells_in cells.now) × PlanReady cells.now.sizes plan.now values.old marks.old }
    ensures { AllExchanged cells.now.sizes (cells_in cells.now) plan.now
        values.old marks.old values.new marks.new result }
{
    let last = plan.last_round();
    let messages = gather_exchanges::exchange_to(cells, values, marks, plan, last);
    Counts {
        exchanges: usize::from(last),
        messages,
    }
}

// Fills the places of those Read lines of a plan that a rule reads; what that took.
pub fn gather(
    file: &[u8],
    values: &mut [i64],
    marks: &mut [u8],
    sizes: Sizes,
    machine: Machine,
    plan: &Plan,
    wanted: &[bool; 64],
) -> Counts
    requires { Register sizes file.now × GatherReady machine sizes plan.now wanted.now values.old marks.old }
    ensures { Gathered machine sizes (cells_of_file sizes file.now) plan.now wanted.now
        values.old marks.old values.new marks.new result }
{
    let cells = Cells::of(file, sizes);
    match machine {
        Machine::Direct => {
            gather_follow::fill(&cells, values, marks, plan, wanted);
            Counts::NONE
        }
        Machine::Messages => exchange_all(&cells, values, marks, plan),
    }
}

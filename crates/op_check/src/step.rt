// Document 01's plan of a step.
ghost use Rattle.text_rules.specs.Text.{plan_of_step};
ghost use Rattle.op_check.specs.StepPlan.{PlanAnswers, StepFound};
ghost use Rattle.std.specs.Prelude.{IfOk};

use crate::check;
use crate::check::Refused;
use op_limits;
use op_limits::Refusal;
use plan_lines::Plan;

// The plan of a step, whether a remote exchange follows, and the most lines of any step of the text.
#[derive(Clone, Copy, Debug, PartialEq, Eq)]
pub struct StepPlan {
    pub plan: Plan,
    pub remote: bool,
    pub most: usize,
}

// The plan of a step, counted from 1; 17 for a step that is not there.
pub fn plan_step(file: &[u8], text: &[u8], step: u64) -> Result<StepPlan, Refused>
    ensures { PlanAnswers (plan_of_step file.now text.now step) result × IfOk result (λ r. StepFound file.now text.now step r) }
{
    // The program stays where it is: it is large, and to take it out would be one more of it on the stack.
    let checked = check::check(file, text);
    let program = match &checked {
        Ok(program) => program,
        Err(refused) => return Err(*refused),
    };
    if !op_limits::is_step(program.steps, step) {
        return Err(Refused::from(Refusal::Step));
    }
    let frame = program.frames[(step - 1) as usize];
    Ok(StepPlan {
        plan: frame.plan,
        remote: frame.remote,
        most: program.lines,
    })
}

// Document 01's look: a single step of a text over the register as loaded, after its round t.
#![tactic(auto)]

ghost use Rattle.std.specs.Prelude.{◌≡◌, length};
ghost use Rattle.op_inspect.specs.Inspection.{inspection};
ghost use Rattle.op_inspect.specs.Answer.{inspect_refusal, InspectAnswered};

use op_check::step;
use op_limits;
use op_show;
use register;

// The refusal's number, 0 for none, with its line; the step's number of plan lines.
#[derive(Clone, Copy)]
pub struct InspectAnswer {
    pub refusal: u32,
    pub line: usize,
    pub lines: usize,
}

fn refused(refusal: u32, line: usize) -> InspectAnswer
    ensures { result ≡ inspect_refusal refusal line }
{
    InspectAnswer {
        refusal,
        line,
        lines: 0,
    }
}

// Shows a step after its round t, steps counting from 1; how many lines it has, or why it is refused.
pub fn inspect(
    file: &[u8],
    text: &[u8],
    step: u64,
    t: u16,
    values: &mut [i64],
    marks: &mut [u8],
) -> InspectAnswer
    ensures { InspectAnswered (inspection file.now text.now step (length values.old) (length marks.old))
        file.now t values.old marks.old values.new marks.new result }
{
    let planned = match step::plan_step(file, text, step) {
        Ok(planned) => planned,
        Err(why) => return refused(why.refusal.number(), why.line),
    };
    let sizes = register::sizes_of(file);
    if op_limits::is_short(sizes, planned.most, values.len(), marks.len()) {
        return refused(19, 0);
    }
    let plan = planned.plan;
    op_show::show(file, values, marks, sizes, &plan, t);
    InspectAnswer {
        refusal: 0,
        line: 0,
        lines: plan.count,
    }
}

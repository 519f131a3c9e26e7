// The look at a step.
ghost use Rattle.std.specs.Prelude.{length};
ghost use Rattle.op_inspect.specs.Inspection.{inspection};
ghost use Rattle.c_api.specs.InspectAnswer.{InspectCalled};

use api_answer;

// Shows a step, counted from 1, after its round t: the refusal number, 0 for none. On a refusal both arrays stay as they are.
pub fn plot_inspect(
    file: &[u8],
    text: &[u8],
    step: u64,
    t: u16,
    values: &mut [i64],
    marks: &mut [u8],
    answer: &mut [u64; 8],
) -> u32
    ensures { InspectCalled (inspection file.now text.now step (length values.old) (length marks.old))
        file.now t values.old marks.old values.new marks.new result answer.new }
{
    let inspected = op_inspect::inspect(file, text, step, t, values, marks);
    *answer = api_answer::of_inspection(inspected);
    inspected.refusal
}

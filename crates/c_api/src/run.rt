// The two runs.
ghost use Rattle.machine_messages.specs.declared.Machine.TheVariants.{Direct, Messages};
ghost use Rattle.op_run.specs.Direct.{direct_run};
ghost use Rattle.op_run.specs.Answer.{lengths};
ghost use Rattle.c_api.specs.RunAnswer.{RunCalled};

use api_answer;

// Runs a text over a register, every reading by following references: the refusal number, 0 for none.
pub fn plot_run_direct(
    file: &[u8],
    text: &[u8],
    budget: u16,
    out: &mut [u8],
    values: &mut [i64],
    marks: &mut [u8],
    answer: &mut [u64; 8],
) -> u32
    ensures { RunCalled Direct (direct_run file.now text.now budget (lengths out.old values.old marks.old))
        file.now out.old values.old marks.old out.new values.new marks.new result answer.new }
{
    let ran = op_run::run_direct(file, text, budget, out, values, marks);
    *answer = api_answer::of_run(ran);
    ran.refusal
}

// The same by messages.
pub fn plot_run_messages(
    file: &[u8],
    text: &[u8],
    budget: u16,
    out: &mut [u8],
    values: &mut [i64],
    marks: &mut [u8],
    answer: &mut [u64; 8],
) -> u32
    ensures { RunCalled Messages (direct_run file.now text.now budget (lengths out.old values.old marks.old))
        file.now out.old values.old marks.old out.new values.new marks.new result answer.new }
{
    let ran = op_run::run_messages(file, text, budget, out, values, marks);
    *answer = api_answer::of_run(ran);
    ran.refusal
}

// Document 01's runs of a rules text over a register file, in buffers that the caller lends.
#![tactic(auto)]

ghost use Rattle.std.specs.Prelude.{◌≡◌};
ghost use Rattle.machine_messages.specs.declared.Machine.TheVariants.{Direct, Messages};
ghost use Rattle.op_run.specs.Direct.{direct_run};
ghost use Rattle.op_run.specs.Answer.{lengths, refused_with, Answered};

use gather::counts::Counts;
use machine_messages::Machine;
use op_check::check;
use op_ready;
use run_steps;
use run_steps::RunAnswer;

// A refusal before running.
fn refused(refusal: u32, line: usize) -> RunAnswer
    ensures { result ≡ refused_with refusal line }
{
    RunAnswer {
        refusal,
        line,
        finished: 0,
        counts: Counts::NONE,
        row: 0,
        column: 0,
    }
}

// A run by either machine.
fn run_text(
    file: &[u8],
    text: &[u8],
    budget: u16,
    out: &mut [u8],
    values: &mut [i64],
    marks: &mut [u8],
    machine: Machine,
) -> RunAnswer
    ensures { Answered machine (direct_run file.now text.now budget (lengths out.old values.old marks.old))
        file.now out.old values.old marks.old out.new values.new marks.new result }
{
    let mut codes = [0u64; 8192];
    let program = match check::read(file, text, &mut codes) {
        Ok(program) => program,
        Err(why) => return refused(why.refusal.number(), why.line),
    };
    let sizes = register::sizes_of(file);
    match op_ready::ready(file, sizes, program.lines, out, values, marks) {
        Ok(()) => {}
        Err(refusal) => return refused(refusal.number(), 0),
    }
    let answer = run_steps::run_program(
        out, values, marks, sizes, &codes, program, machine, budget,
    );
    op_ready::restore(file, out, answer.refusal);
    answer
}

// The straight run: every reading is had by following references.
// The machine is no parameter here and below, since `plot_run_direct` and `plot_run_messages` are names that C has.
pub fn run_direct(
    file: &[u8],
    text: &[u8],
    budget: u16,
    out: &mut [u8],
    values: &mut [i64],
    marks: &mut [u8],
) -> RunAnswer
    ensures { Answered Direct (direct_run file.now text.now budget (lengths out.old values.old marks.old))
        file.now out.old values.old marks.old out.new values.new marks.new result }
{
    run_text(file, text, budget, out, values, marks, Machine::Direct)
}

// The run by messages (document 01's run by letters). Demand 3: it leaves and answers what the direct machine's definition gives,
// with the exchanges and messages of its finished steps.
pub fn run_messages(
    file: &[u8],
    text: &[u8],
    budget: u16,
    out: &mut [u8],
    values: &mut [i64],
    marks: &mut [u8],
) -> RunAnswer
    ensures { Answered Messages (direct_run file.now text.now budget (lengths out.old values.old marks.old))
        file.now out.old values.old marks.old out.new values.new marks.new result }
{
    run_text(file, text, budget, out, values, marks, Machine::Messages)
}

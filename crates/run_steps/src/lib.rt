// The run of a program, by either machine: step after step, within the budget.
#![tactic(auto)]

ghost use Rattle.std.specs.Prelude.{◌+◌, ◌*◌};
ghost use Rattle.register.specs.File.{cells_of_file};
ghost use Rattle.register.specs.Shape.{Register};
ghost use Rattle.step_cells.specs.Work.{HoldsCells};
ghost use Rattle.program.specs.Passed.{ProgramPasses};
ghost use Rattle.program.specs.Kept.{program_of, Complete};
ghost use Rattle.run_steps.specs.Answer.{AnswerIs, in_arrays, Scratch, Ends};

use gather::counts::Counts;
use machine_messages::Machine;
use program::Program;
use program::frame::Frame;
use program::location::Located;
use register::Sizes;
use run_turn;
use run_turn::Progress;
use step_cells;
use step_cells::stop::Offence;
use step_rules::{local, remote};
use step_tests::stay_plain;

// The refusal's number, 0 for none, with its line where it has one; the finished steps and what they count; for 21 the record and
// the column where it happened.
#[derive(Clone, Copy)]
pub struct RunAnswer {
    pub refusal: u32,
    pub line: usize,
    pub finished: u16,
    pub counts: Counts,
    pub row: usize,
    pub column: usize,
}

// What a run answers that stops before a step: at a sum or total, or where a step is left and the budget spent, or at its end.
fn answer(run: Progress, steps: usize) -> RunAnswer
    ensures { AnswerIs run.stop run.step steps run.finished run.counts result }
{
    let finished = run.finished;
    let counts = run.counts;
    if let Err(Offence { row, column }) = run.stop {
        return RunAnswer {
            refusal: 21,
            line: 0,
            finished,
            counts,
            row,
            column,
        };
    }
    RunAnswer {
        refusal: if run.step < steps { 20 } else { 0 },
        line: 0,
        finished,
        counts,
        row: 0,
        column: 0,
    }
}

// The steps, over working cells that hold the register's. The function holds the program's arrays and takes a step's frame and
// rules out without a call, once for a step that is done again and again; it sees then whether they are all plain.
fn run_steps(
    out: &mut [u8],
    values: &mut [i64],
    marks: &mut [u8],
    sizes: Sizes,
    codes: &[u64],
    slots: [Located; 1024],
    frames: [Frame; 32],
    steps: usize,
    lines: usize,
    machine: Machine,
    budget: u16,
) -> RunAnswer
    requires { Register sizes out.old × Scratch sizes lines values.old marks.old
        × Complete codes.now (in_arrays slots frames steps lines)
        × ProgramPasses sizes (program_of codes.now (in_arrays slots frames steps lines))
        × HoldsCells (lines * sizes.records + sizes.records) (cells_of_file sizes out.old) values.old marks.old }
    ensures { Ends machine sizes (program_of codes.now (in_arrays slots frames steps lines))
        budget out.old out.new result }
{
    let at = lines * sizes.records;
    let base = at + sizes.records;
    let mut rules = [slots[0]; 32];
    let mut frame = frames[0];
    let mut plain = true;
    let mut taken = steps;
    let mut run = Progress::start(steps);
    while run.goes_on(steps, budget) {
        let step = run.step;
        if taken != step {
            frame = frames[step];
            plain = true;
            for k in 0..frame.rules {
                rules[k] = slots[32 * step + k];
                plain = stay_plain(plain, rules[k]);
            }
            taken = step;
        }
        let used = frame.rules;
        let begun = run_turn::begin(out, values, marks, sizes, at, machine, &frame, run);
        let mut stop = Ok(());
        'records: for u in 0..sizes.records {
            for k in 0..used {
                // A flag and no function as a value: the compiler lifts it out of the loop.
                if plain {
                    stop = local::apply_plain(out, values, marks, sizes, base, u, rules[k]);
                } else {
                    stop = local::apply_rule(out, values, marks, sizes, base, u, codes, rules[k]);
                }
                if stop.is_err() {
                    break 'records;
                }
            }
        }
        let mut sent = 0;
        if run_turn::sends(stop, frame.remote) {
            sent = remote::apply(out, values, marks, sizes, base, codes, rules, used, plain);
        }
        let fields = frame.fields;
        run = run_turn::finish(out, values, marks, sizes, begun, fields, sent, stop, run);
    }
    answer(run, steps)
}

// The program over the register in `out`.
pub fn run_program(
    out: &mut [u8],
    values: &mut [i64],
    marks: &mut [u8],
    sizes: Sizes,
    codes: &[u64],
    program: Program,
    machine: Machine,
    budget: u16,
) -> RunAnswer
    requires { Register sizes out.old × Scratch sizes program.lines values.old marks.old × Complete codes.now program
        × ProgramPasses sizes (program_of codes.now program) }
    ensures { Ends machine sizes (program_of codes.now program) budget
        out.old out.new result }
{
    let at = program.lines * sizes.records;
    step_cells::begin(out, values, marks, sizes, at + sizes.records);
    let slots = program.slots;
    let frames = program.frames;
    run_steps(
        out,
        values,
        marks,
        sizes,
        codes,
        slots,
        frames,
        program.steps,
        program.lines,
        machine,
        budget,
    )
}

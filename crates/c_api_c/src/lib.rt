// The exported functions, for programs in other languages: each is the one of its name in c_api, under the same clauses.
// Each stands under the name that C has, so that the two runs are two functions.
#![tactic(auto)]

ghost use Rattle.std.specs.Prelude.{length};
ghost use Rattle.op_read.specs.Reading.{reading};
ghost use Rattle.op_path.specs.Path.{reading_path};
ghost use Rattle.text_rules.specs.Text.{check as check_of, plan_of_step};
ghost use Rattle.machine_messages.specs.declared.Machine.TheVariants.{Direct, Messages};
ghost use Rattle.op_run.specs.Direct.{direct_run};
ghost use Rattle.op_run.specs.Answer.{lengths};
ghost use Rattle.op_inspect.specs.Inspection.{inspection as inspection_of};
ghost use Rattle.api_read.specs.Numbers.{read_numbers};
ghost use Rattle.c_api.specs.Answer.{ReadAnswer, check_numbers, CheckAnswer};
ghost use Rattle.c_api.specs.PathAnswer.{PathCalled};
ghost use Rattle.c_api.specs.PlanAnswer.{PlanAnswer};
ghost use Rattle.c_api.specs.RunAnswer.{RunCalled};
ghost use Rattle.c_api.specs.InspectAnswer.{InspectCalled};

use c_api::{check, inspection, path, read, run, step};

// The reading of a chain at record u: the refusal number, 0 for none. On a refusal the value stays as it was.
#[unsafe(no_mangle)]
pub extern "C" fn plot_read(
    file: &[u8],
    text: &[u8],
    u: u64,
    value: &mut i64,
    answer: &mut [u64; 8],
) -> u32
    ensures { ReadAnswer (read_numbers (reading file.now text.now u))
        value.old result value.new answer.new }
{
    read::plot_read(file, text, u, value, answer)
}

// The path behind the reading of a chain at record u: the refusal number, 0 for none. On a refusal the four arrays stay
// as they are.
#[unsafe(no_mangle)]
pub extern "C" fn plot_path(
    file: &[u8],
    text: &[u8],
    u: u64,
    records: &mut [u64; 16],
    fields: &mut [u8; 16],
    values: &mut [i64; 16],
    marks: &mut [u8; 16],
    answer: &mut [u64; 8],
) -> u32
    ensures { PathCalled (reading_path file.now text.now u) result answer.new
        (record { records = records.old; fields = fields.old; values = values.old; marks = marks.old })
        (record { records = records.new; fields = fields.new; values = values.new; marks = marks.new }) }
{
    path::plot_path(file, text, u, records, fields, values, marks, answer)
}

// Whether a text passes over a register: the refusal number, 0 for none.
#[unsafe(no_mangle)]
pub extern "C" fn plot_check(file: &[u8], text: &[u8], answer: &mut [u64; 8]) -> u32
    ensures { CheckAnswer (check_numbers (check_of file.now text.now)) result answer.new }
{
    check::plot_check(file, text, answer)
}

// The plan of a step, counted from 1: the refusal number, 0 for none. On a refusal the three arrays stay as they are.
#[unsafe(no_mangle)]
pub extern "C" fn plot_plan(
    file: &[u8],
    text: &[u8],
    step: u64,
    kinds: &mut [u8; 64],
    chains: &mut [u8; 1024],
    rounds: &mut [u8; 64],
    answer: &mut [u64; 8],
) -> u32
    ensures { PlanAnswer (plan_of_step file.now text.now step) result answer.new
        (record { kinds = kinds.old; chains = chains.old; rounds = rounds.old })
        (record { kinds = kinds.new; chains = chains.new; rounds = rounds.new }) }
{
    step::plot_plan(file, text, step, kinds, chains, rounds, answer)
}

// Runs a text over a register, every reading by following references: the refusal number, 0 for none.
#[unsafe(no_mangle)]
pub extern "C" fn plot_run_direct(
    file: &[u8],
    text: &[u8],
    budget: u16,
    out: &mut [u8],
    values: &mut [i64],
    marks: &mut [u8],
    answer: &mut [u64; 8],
) -> u32
    ensures { RunCalled Direct (direct_run file.now text.now budget (lengths out.old values.old marks.old))
        file.now out.old values.old marks.old out.new values.new marks.new result answer.new }
{
    run::plot_run_direct(file, text, budget, out, values, marks, answer)
}

// The same by messages.
#[unsafe(no_mangle)]
pub extern "C" fn plot_run_messages(
    file: &[u8],
    text: &[u8],
    budget: u16,
    out: &mut [u8],
    values: &mut [i64],
    marks: &mut [u8],
    answer: &mut [u64; 8],
) -> u32
    ensures { RunCalled Messages (direct_run file.now text.now budget (lengths out.old values.old marks.old))
        file.now out.old values.old marks.old out.new values.new marks.new result answer.new }
{
    run::plot_run_messages(file, text, budget, out, values, marks, answer)
}

// Shows a step, counted from 1, after its round t: the refusal number, 0 for none. On a refusal both arrays stay as they are.
#[unsafe(no_mangle)]
pub extern "C" fn plot_inspect(
    file: &[u8],
    text: &[u8],
    step: u64,
    t: u16,
    values: &mut [i64],
    marks: &mut [u8],
    answer: &mut [u64; 8],
) -> u32
    ensures { InspectCalled (inspection_of file.now text.now step (length values.old) (length marks.old))
        file.now t values.old marks.old values.new marks.new result answer.new }
{
    inspection::plot_inspect(file, text, step, t, values, marks, answer)
}

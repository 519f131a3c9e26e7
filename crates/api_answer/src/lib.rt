// The eight places of the C interface's answer array, for a run and for a look.
#![tactic(auto)]

ghost use Rattle.std.specs.Prelude.{◌≡◌};
ghost use Rattle.api_answer.specs.Numbers.{run_numbers, inspect_numbers};

use op_inspect::InspectAnswer;
use run_steps::RunAnswer;

// A run's answer.
pub fn of_run(ran: RunAnswer) -> [u64; 8]
    ensures { result ≡ run_numbers ran }
{
    let counts = ran.counts;
    [
        ran.line as u64,
        ran.finished as u64,
        counts.exchanges as u64,
        counts.messages as u64,
        ran.row as u64,
        ran.column as u64,
        0,
        0,
    ]
}

// The answer of an inspection.
pub fn of_inspection(answer: InspectAnswer) -> [u64; 8]
    ensures { result ≡ inspect_numbers answer }
{
    [answer.line as u64, 0, 0, 0, 0, 0, answer.lines as u64, 0]
}

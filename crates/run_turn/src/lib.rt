// A turn of the run's loop but for the rules of its step: whether there is one; the pass entered and the readings gathered; the
// cells committed to the register, the step counted and the next one found.
#![tactic(auto)]

ghost use Rattle.std.specs.Prelude.{◌≡◌, ◌*◌, ◌≤◌, length};
ghost use Rattle.register.specs.File.{cells_of_file};
ghost use Rattle.register.specs.Shape.{Register};
ghost use Rattle.plan_lines.specs.Held.{facts};
ghost use Rattle.program.specs.Passed.{SettingPasses};
ghost use Rattle.gather_exchanges.specs.Lines.{StepPlanned};
ghost use Rattle.run_loop.specs.Column.{Space};
ghost use Rattle.run_turn.specs.Turned.{start_of, GoesOn, TurnBegun, sends_by, AtEnd, FinishedBy};

use gather;
use gather::counts::Counts;
use machine_messages::Machine;
use program::frame::Frame;
use program::setting::Setting;
use register::Sizes;
use run_loop;
use step_cells::stop::Offence;
use step_commit;

// How far a run has come: the steps that are finished, what they count, the step that comes next and the first of the pass; or
// where that step stops.
#[derive(Clone, Copy, Debug, PartialEq, Eq)]
pub struct Progress {
    pub stop: Result<(), Offence>,
    pub step: usize,
    pub first: usize,
    pub finished: u16,
    pub counts: Counts,
}

// A step that is begun: the first of the pass that it stands in, and what gathering its readings took; with what its end asks for
// again: the column of the pass, its setting, the machine, and whether it has remote writes.
#[derive(Clone, Copy)]
pub struct Begun {
    pub first: usize,
    pub gathered: Counts,
    pub at: usize,
    pub setting: Setting,
    pub machine: Machine,
    pub remote: bool,
}

impl Progress {
    // A run of a program of so many steps before the first: no pass is entered yet.
    pub fn start(steps: usize) -> Progress
        ensures { result ≡ start_of steps }
    {
        Progress {
            stop: Ok(()),
            step: 0,
            first: steps,
            finished: 0,
            counts: Counts::NONE,
        }
    }

    // Whether a step is left and the budget allows it, where the run has not stopped.
    pub fn goes_on(&self, steps: usize, budget: u16) -> bool
        ensures { GoesOn self.now steps budget result }
    {
        self.stop.is_ok() && self.finished != budget && self.step < steps
    }
}

// Before the rules of a step, with its frame.
pub fn begin(
    out: &[u8],
    values: &mut [i64],
    marks: &mut [u8],
    sizes: Sizes,
    at: usize,
    machine: Machine,
    frame: &Frame,
    run: Progress,
) -> Begun
    requires { Register sizes out.now × SettingPasses sizes frame.now.setting × Space sizes at values.old marks.old
        × StepPlanned sizes frame.now.plan × (length frame.now.wanted ≡ 64)
        × (frame.now.plan.count * sizes.records ≤ length values.old) × (frame.now.plan.count * sizes.records ≤ length marks.old) }
    ensures { TurnBegun machine sizes at frame.now.setting frame.now.remote (cells_of_file sizes out.now) (facts frame.now.plan) frame.now.wanted
        values.old marks.old values.new marks.new run result }
{
    let setting = frame.setting;
    let first = run_loop::enter(out, values, marks, sizes, at, setting, run.step, run.first);
    let gathered = gather::gather(
        out,
        values,
        marks,
        sizes,
        machine,
        &frame.plan,
        &frame.wanted,
    );
    Begun {
        first,
        gathered,
        at,
        setting,
        machine,
        remote: frame.remote,
    }
}

// Whether a step sends its remote writes: it has some, and no local sum is out of range.
pub fn sends(stop: Result<(), Offence>, remote: bool) -> bool
    ensures { result ≡ sends_by stop remote }
{
    stop.is_ok() && remote
}

// Behind the rules of a step, which may have stopped; its cells stand behind the column of the pass. A run whose step stops keeps
// the counts of the steps before it.
pub fn finish(
    out: &mut [u8],
    values: &[i64],
    marks: &[u8],
    sizes: Sizes,
    begun: Begun,
    fields: [bool; 16],
    sent: usize,
    stop: Result<(), Offence>,
    run: Progress,
) -> Progress
    requires { AtEnd stop sizes begun sent values.now marks.now out.old run }
    ensures { FinishedBy stop sizes begun fields sent values.now marks.now
        out.old out.new run result }
{
    if stop.is_err() {
        return Progress { stop, ..run };
    }
    let at = begun.at;
    let total = step_commit::commit(out, values, marks, sizes, at + sizes.records, fields);
    if total.is_err() {
        return Progress { stop: total, ..run };
    }
    let counts = run
        .counts
        .after(begun.machine, begun.gathered, begun.remote, sent);
    let first = begun.first;
    let step = run_loop::next(
        out,
        values,
        marks,
        sizes,
        at,
        begun.setting,
        run.step,
        first,
    );
    Progress {
        stop,
        step,
        first,
        finished: run.finished + 1,
        counts,
    }
}

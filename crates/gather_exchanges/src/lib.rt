// The exchanges of a step: the messages (document 01's letters) of its plan's lines, round by round. Line i and origin u have
// place i × n + u of the scratch buffers.
#![tactic(auto)]

ghost use Rattle.std.specs.Prelude.{◌≡◌, ◌≤◌, ◌<◌, length};
ghost use Rattle.register.specs.View.{cells_in};
ghost use Rattle.register.specs.Shape.{Valid};
ghost use Rattle.plan_theory.specs.Plan.{hops, line_from};
ghost use Rattle.plan_keys.specs.Keys.{fact_of};
ghost use Rattle.plan_lines.specs.Held.{line_at};
ghost use Rattle.plan_lines.specs.Promised.{fact_at};
ghost use Rattle.gather_line.specs.Written.{places_of, message_at, LineReady, LineSent};
ghost use Rattle.gather_exchanges.specs.Lines.{field_of, PlanReady};
ghost use Rattle.gather_exchanges.specs.Exchanged.{ExchangeReady, Exchanged, ExchangedTo, Cleared};

use chain::packed;
use gather_line;
use plan_keys::key;
use plan_keys::key::ONE_HOP;
use plan_lines::Plan;
use register::cells::Cells;
use scratch;

// The first field of the word that a line's writer has to know.
fn field_of(key: u64) -> usize
    requires { (line_from (fact_of key) ≤ hops (fact_of key)) × (hops (fact_of key) ≤ 16) }
    ensures { result ≡ field_of (fact_of key) }
{
    if key <= ONE_HOP {
        return packed::first_hop(key::chain_of(key)) as usize;
    }
    packed::first_hop(key::chain_of(key::needs_of(key).read)) as usize
}

// The messages of line i, at its places; how many are sent. Every line is made from its two needs, or from the writer's cells.
fn exchange_line(
    cells: &Cells<'_>,
    values: &mut [i64],
    marks: &mut [u8],
    plan: &Plan,
    i: usize,
) -> usize
    requires { (i < 64) × LineReady cells.now.sizes values.old marks.old i (line_at plan.now i).back (line_at plan.now i).read (field_of (fact_at plan.now i))
        × (line_from (fact_at plan.now i) ≤ hops (fact_at plan.now i)) × (hops (fact_at plan.now i) ≤ 16) }
    ensures { LineSent cells.now.sizes (message_at cells.now.sizes (cells_in cells.now)
        (places_of cells.now.sizes values.old marks.old) (line_at plan.now i).back (line_at plan.now i).read (field_of (fact_at plan.now i))) i cells.now.sizes.records
        values.old marks.old values.new marks.new result }
{
    let back = plan.backs[i] as usize;
    let read = plan.reads[i] as usize;
    gather_line::exchange(cells, values, marks, i, back, read, field_of(plan.keys[i]))
}

// Exchange t: the lines of round t, in order; how many messages are sent.
pub fn exchange(
    cells: &Cells<'_>,
    values: &mut [i64],
    marks: &mut [u8],
    plan: &Plan,
    t: u8,
) -> usize
    requires { ExchangeReady cells.now.sizes plan.now t values.old marks.old }
    ensures { Exchanged cells.now.sizes (cells_in cells.now) plan.now t plan.now.count
        values.old marks.old values.new marks.new result }
{
    let mut sent = 0;
    for i in 0..plan.count {
        if plan.rounds[i] == t {
            sent += exchange_line(cells, values, marks, plan, i);
        }
    }
    sent
}

// The exchanges 1 to `last`; how many messages are sent in all.
pub fn exchange_to(
    cells: &Cells<'_>,
    values: &mut [i64],
    marks: &mut [u8],
    plan: &Plan,
    last: u8,
) -> usize
    requires { Valid cells.now.sizes (cells_in cells.now) × PlanReady cells.now.sizes plan.now values.old marks.old }
    ensures { ExchangedTo cells.now.sizes (cells_in cells.now) plan.now last
        values.old marks.old values.new marks.new result }
{
    // A copy: what stands behind the reference would be read anew for each message.
    let own = *cells;
    let mut sent = 0;
    for t in 1..=last {
        sent += exchange(&own, values, marks, plan, t);
    }
    sent
}

// Makes the first places missing.
pub fn clear(values: &mut [i64], marks: &mut [u8], places: usize)
    requires { (places ≤ length values.old) × (places ≤ length marks.old) }
    ensures { Cleared places values.old marks.old values.new marks.new }
{
    values[..places].fill(0);
    marks[..places].fill(0);
}

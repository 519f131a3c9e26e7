// The remote writes of a step, delivered to the working cells.
ghost use Rattle.std.specs.Prelude.{◌≡◌, [], ◌+◌, ◌*◌, ◌≤◌, ◌<◌, length, take};
ghost use Rattle.register.specs.View.{cells_in};
ghost use Rattle.register.specs.File.{cell_count, cells_of_file};
ghost use Rattle.register.specs.Shape.{Limits};
ghost use Rattle.program.specs.Stored.{rules_in};
ghost use Rattle.machine.specs.Remote.{record_messages};
ghost use Rattle.step_effects.specs.Answers.{messages_in};
ghost use Rattle.step_cells.specs.Work.{Room, Small};
ghost use Rattle.step_rules.specs.Ready.{RuleReady, AllReady, AllPlain};
ghost use Rattle.step_rules.specs.Delivered.{Addresses, Delivers, Delivered, RuleSends, PlainSends, AllSend};

use machine::message::Message;
use program::location::Located;
use register::Sizes;
use register::cells::Cells;
use step_cells;
use step_effects::sent;
use step_plain;

// The message of a rule, where it sends one. The number of messages, with those sent before: a number of its own would be made 0
// or 1 on every way out and added.
fn post(
    values: &mut [i64],
    marks: &mut [u8],
    sizes: Sizes,
    base: usize,
    message: Option<Message>,
    sent: usize,
) -> usize
    requires limits { Limits sizes × Addresses sizes message × Room base (cell_count sizes) values.old marks.old }
    requires small { Small 4611686018427387904 base (cell_count sizes) values.old marks.old × (sent < 131072) }
    ensures { Delivers sizes base (messages_in message) values.old marks.old values.new marks.new sent result }
{
    let Some(message) = message else {
        return sent;
    };
    let place = step_cells::place(sizes, base, message.target, message.field);
    step_cells::deliver(values, marks, place, message.sort, message.amount);
    sent + 1
}

// One rule at record u.
fn apply_rule(
    cells: &Cells<'_>,
    values: &mut [i64],
    marks: &mut [u8],
    base: usize,
    u: usize,
    codes: &[u64],
    rule: Located,
    sent: usize,
) -> usize
    requires parts { (u < cells.now.sizes.records) × Room base (cell_count cells.now.sizes) values.old marks.old }
    requires rule_ready { RuleReady cells.now.sizes (cells_in cells.now) (take base values.old) (take base marks.old) codes.now rule }
    requires small { Small 4611686018427387904 base (cell_count cells.now.sizes) values.old marks.old × (sent < 131072) }
    ensures { Delivered cells.now.sizes base (RuleSends cells.now.sizes (cells_in cells.now) values.old marks.old base u codes.now rule)
        values.old marks.old values.new marks.new sent result }
{
    let message = sent::message_of(cells, &values[..base], &marks[..base], u, codes, rule);
    post(values, marks, cells.sizes, base, message, sent)
}

// The same for a plain rule, which needs no codes.
// It is a way of its own for speed: by the general one a rule at a record took 17 ns and not 2.6 (docs/DECISIONS.md).
fn apply_plain(
    cells: &Cells<'_>,
    values: &mut [i64],
    marks: &mut [u8],
    base: usize,
    u: usize,
    rule: Located,
    sent: usize,
) -> usize
    requires parts { (u < cells.now.sizes.records) × Room base (cell_count cells.now.sizes) values.old marks.old }
    requires rule_ready { RuleReady cells.now.sizes (cells_in cells.now) (take base values.old) (take base marks.old) [] rule }
    requires small { Small 4611686018427387904 base (cell_count cells.now.sizes) values.old marks.old × (sent < 131072) }
    ensures { Delivered cells.now.sizes base (PlainSends cells.now.sizes (cells_in cells.now) values.old marks.old base u rule)
        values.old marks.old values.new marks.new sent result }
{
    let message = step_plain::message_of(cells, &values[..base], &marks[..base], u, rule);
    post(values, marks, cells.sizes, base, message, sent)
}

// The messages of all rules at all records of the register in `out`, which may all be plain. Their number.
pub fn apply(
    out: &[u8],
    values: &mut [i64],
    marks: &mut [u8],
    sizes: Sizes,
    base: usize,
    codes: &[u64],
    rules: [Located; 32],
    count: usize,
    plain: bool,
) -> usize
    requires limits { Limits sizes × (length out.now ≡ 12 + 5 * cell_count sizes) × Room base (cell_count sizes) values.old marks.old × (count ≤ 32) × (length rules ≡ 32) }
    requires all_ready { AllReady sizes (cells_of_file sizes out.now) (take base values.old) (take base marks.old) codes.now (take count rules) }
    requires small { Small 2147483648 base (cell_count sizes) values.old marks.old × AllPlain plain (take count rules) }
    ensures { Delivered sizes base
        (AllSend sizes (cells_of_file sizes out.now) values.old marks.old base codes.now count rules
        (λ read. record_messages read (rules_in codes.now count rules) sizes.records))
        values.old marks.old values.new marks.new 0 result }
{
    let cells = Cells::of(out, sizes);
    let mut sent = 0;
    for u in 0..sizes.records {
        for k in 0..count {
            // A flag and no function as a value: the compiler lifts it out of the loop.
            if plain {
                sent = apply_plain(&cells, values, marks, base, u, rules[k], sent);
            } else {
                sent = apply_rule(&cells, values, marks, base, u, codes, rules[k], sent);
            }
        }
    }
    sent
}

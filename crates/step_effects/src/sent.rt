// What a rule sends to another record.
ghost use Rattle.std.specs.Prelude.{◌≡◌, false, ◌<◌};
ghost use Rattle.register.specs.View.{cells_in};
ghost use Rattle.program.specs.Program.{target_field};
ghost use Rattle.program.specs.Stored.{rule_in, target_in};
ghost use Rattle.program.specs.Terms.{SlotPlaced};
ghost use Rattle.machine.specs.Local.{offends};
ghost use Rattle.machine.specs.Remote.{rule_messages};
ghost use Rattle.step_terms.specs.Found.{Told, SlotReaches, TargetFound, Within, Names};
ghost use Rattle.step_effects.specs.Answers.{messages_in, GoesTo};

use crate::stored;
use machine::message::Message;
use program::location::Located;
use program::rule::Rule;
use register::cells::Cells;
use step_terms::term;

// What a rule sends from record u where none of its sums leaves the range: "One whose C or X is unfilled does nothing."
pub fn message_of(
    cells: &Cells<'_>,
    values: &[i64],
    marks: &[u8],
    u: usize,
    codes: &[u64],
    located: Located,
) -> Option<Message>
    requires { (u < cells.now.sizes.records) × SlotReaches cells.now.sizes values.now marks.now u codes.now located
        × TargetFound Names cells.now.sizes (cells_in cells.now) values.now marks.now u located.at.rule located.slot.rule }
    ensures { GoesTo (target_field (target_in located.slot.rule))
        (λ n. TargetFound (Within n) cells.now.sizes (cells_in cells.now) values.now marks.now u located.at.rule located.slot.rule) result
        × Told cells.now.sizes (cells_in cells.now) values.now marks.now u (λ P. SlotPlaced P codes.now located)
        (λ read. offends read (rule_in codes.now located.slot) ≡ false → messages_in result ≡ rule_messages read (rule_in codes.now located.slot)) }
{
    let Rule::Remote(sort, field, _, _) = located.slot.rule else {
        return None;
    };
    let at = located.at.rule;
    let first = at.first;
    let to = term::found_at(cells, values, marks, u, first)?;
    let value = stored::effect(cells, values, marks, u, codes, located);
    let Ok(Some(amount)) = value else {
        return None;
    };
    Some(Message {
        sort,
        target: integers::index(to),
        field,
        amount,
    })
}

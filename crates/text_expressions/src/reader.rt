// Expressions, operands and groups, which read each other, with a remaining depth. Each begins with what had been gathered
// before, at the place and with the number of codes then.
ghost use Rattle.std.specs.Prelude.{◌≤◌, true, length};
ghost use Rattle.register.specs.Shape.{Limits};
ghost use Rattle.text_syntax.specs.Grammar.{expression, minimum, operand};
ghost use Rattle.text_terms.specs.Term.{NoTerm};
ghost use Rattle.text_codes.specs.Codes.{Roomy};
ghost use Rattle.text_expressions.specs.Reading.{ReadingAt};

use register::Sizes;
use text_joins::{Gathered, Joining, Pending, Unread};
use text_places::mark::Mark;
use text_places::place;
use text_terms::term;

// An expression: what `<?` joins, joined by `+` and `-`. It and `read_minimum` are two, since one function of both ranks calls itself
// twice for a group and takes 1.6 times the time of a text full of groups.
#[cycle(read_expression_read_group_read_minimum_read_operand)]
pub fn read_expression(
    line: &[u8],
    sizes: Sizes,
    room: usize,
    before: Gathered,
    codes: &mut [u64],
) -> Result<Gathered, Unread>
    requires limits { Limits sizes × (room ≤ 8) × (before.end ≤ length line.now) × (before.seen.operators ≤ before.end) }
    requires roomy { Roomy codes.old line.now before.end before.used }
    ensures { ReadingAt expression sizes room before line.now codes.old codes.new result }
{
    let mut next = Pending {
        gathered: before,
        sign: None,
    };
    loop {
        let read = read_minimum(line, sizes, room, next.gathered, codes);
        match text_joins::joined(line, codes, read, next.sign, true)? {
            Joining::Next(more) => next = more,
            Joining::Done(done) => return Ok(done),
        }
    }
}

// Operands joined by `<?`.
#[cycle(read_expression_read_group_read_minimum_read_operand)]
fn read_minimum(
    line: &[u8],
    sizes: Sizes,
    room: usize,
    before: Gathered,
    codes: &mut [u64],
) -> Result<Gathered, Unread>
    requires limits { Limits sizes × (room ≤ 8) × (before.end ≤ length line.now) × (before.seen.operators ≤ before.end) }
    requires roomy { Roomy codes.old line.now before.end before.used }
    ensures { ReadingAt minimum sizes room before line.now codes.old codes.new result }
{
    let mut next = Pending {
        gathered: before,
        sign: None,
    };
    loop {
        let read = read_operand(line, sizes, room, next.gathered, codes);
        match text_joins::joined(line, codes, read, next.sign, false)? {
            Joining::Next(more) => next = more,
            Joining::Done(done) => return Ok(done),
        }
    }
}

// A term or a group.
#[cycle(read_expression_read_group_read_minimum_read_operand)]
fn read_operand(
    line: &[u8],
    sizes: Sizes,
    room: usize,
    before: Gathered,
    codes: &mut [u64],
) -> Result<Gathered, Unread>
    requires limits { Limits sizes × (room ≤ 8) × (before.end ≤ length line.now) × (before.seen.operators ≤ before.end) }
    requires roomy { Roomy codes.old line.now before.end before.used }
    ensures { ReadingAt operand sizes room before line.now codes.old codes.new result }
{
    let Some((parts, end)) = term::read_term(line, before.end, sizes) else {
        return read_group(line, sizes, room, before, codes);
    };
    codes[before.used] = parts.code;
    Ok(Gathered {
        seen: before.seen.with_term(8 - room, parts),
        end,
        used: before.used + 1,
    })
}

// A group, where no term stands: an expression in brackets, of which one less remains.
#[cycle(read_expression_read_group_read_minimum_read_operand)]
fn read_group(
    line: &[u8],
    sizes: Sizes,
    room: usize,
    before: Gathered,
    codes: &mut [u64],
) -> Result<Gathered, Unread>
    requires limits { Limits sizes × (room ≤ 8) × (before.end ≤ length line.now) × (before.seen.operators ≤ before.end) }
    requires roomy { Roomy codes.old line.now before.end before.used × NoTerm line.now before.end }
    ensures { ReadingAt operand sizes room before line.now codes.old codes.new result }
{
    let Some(end) = place::mark(line, before.end, true, Mark::OpenRound) else {
        return Err(Unread::NoForm);
    };
    if room == 0 {
        return Err(Unread::Deep);
    }
    let inner = Gathered { end, ..before };
    let read = read_expression(line, sizes, room - 1, inner, codes);
    text_joins::close_group(line, read)
}

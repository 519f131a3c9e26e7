// Lines, by their first token.
ghost use Rattle.std.specs.Prelude.{◌≡◌, true, false, ◌≤◌, length};
ghost use Rattle.register.specs.Shape.{Limits};
ghost use Rattle.text_syntax.specs.Lexing.{tokens};
ghost use Rattle.text_syntax.specs.Grammar.{any_form};
ghost use Rattle.text_places.specs.Place.{tokens_from};
ghost use Rattle.text_codes.specs.Codes.{Roomy};
ghost use Rattle.text_lines.specs.Line.{no_parts, word_read, loop_read, RuledBehind, ComparedBehind, tested_behind, LineAt, FormAt};

use chain_text::letters;
use program::rule::Slot;
use register::Sizes;
use text_actions::action;
use text_demands::test::{FirstSide, TestParts};
use text_lexer::lexer;
use text_places::mark::Mark;
use text_places::{place, word};
use text_rules::line::LineRead;
use text_sides::side;
use text_words::token::Token;

// A line and the number of codes behind it.
#[derive(Clone, Copy)]
pub struct LineParts {
    pub line: LineRead,
    pub used: usize,
}

impl LineParts {
    // No line of document 01, behind `count` codes.
    pub fn no_form(count: usize) -> LineParts
        ensures { result ≡ no_parts count }
    {
        LineParts {
            line: LineRead::NoForm,
            used: count,
        }
    }
}

// A line that is one word, behind which it ends.
#[tactic(auto, unfolding(crate::specs::Line::word_read))]
fn word_line(line: &[u8], at: usize, word: LineRead, count: usize) -> Option<LineParts>
    requires { at ≤ length line.now }
    ensures { result ≡ word_read word count (tokens_from false line.now at) }
{
    if !word::ends(line, at) {
        return None;
    }
    Some(LineParts {
        line: word,
        used: count,
    })
}

// The field of a loop, behind `loop`.
fn read_loop(line: &[u8], at: usize, sizes: Sizes, count: usize) -> Option<LineParts>
    requires { Limits sizes × (at ≤ length line.now) }
    ensures { result ≡ loop_read sizes count (tokens_from false line.now at) }
{
    let Some((letter, end)) = word::letter(line, at) else {
        return None;
    };
    let field = letters::field_of(letter);
    let named = letters::names_field(sizes, letter);
    word_line(line, end, LineRead::Loop(field, named), count)
}

// The rule at `at`, behind its test.
fn read_ruled(
    line: &[u8],
    at: usize,
    test: TestParts,
    sizes: Sizes,
    codes: &mut [u64],
    count: usize,
) -> Option<LineParts>
    requires { Limits sizes × (at ≤ length line.now) × Roomy codes.old line.now at count × (length codes.old ≤ 65536) }
    ensures { RuledBehind sizes line.now at test codes.old codes.new count result }
{
    let Some(action) = action::read(line, at, sizes, codes, count) else {
        return None;
    };
    let slot = Slot {
        test: test.test,
        rule: action.rule,
    };
    Some(LineParts {
        line: LineRead::Rule(slot, test.checks.and(action.checks)),
        used: action.used,
    })
}

// `Y:` and a rule, behind `if X <`.
fn read_compared(
    line: &[u8],
    at: usize,
    first: FirstSide,
    sizes: Sizes,
    codes: &mut [u64],
    count: usize,
) -> Option<LineParts>
    requires { Limits sizes × (at ≤ length line.now) × Roomy codes.old line.now at count × (length codes.old ≤ 65536) }
    ensures { ComparedBehind sizes line.now at first codes.old codes.new count result }
{
    let Some(second) = side::read(line, at, sizes, codes, count) else {
        return None;
    };
    let Some(start) = place::mark(line, second.end, false, Mark::Colon) else {
        return None;
    };
    let test = TestParts::when(first, second.seen, second.term);
    read_ruled(line, start, test, sizes, codes, second.used)
}

// A test and a rule, behind `if`.
fn read_tested(
    line: &[u8],
    at: usize,
    sizes: Sizes,
    codes: &mut [u64],
    count: usize,
) -> Option<LineParts>
    requires { Limits sizes × (at ≤ length line.now) × Roomy codes.old line.now at count × (length codes.old ≤ 65536) }
    ensures { FormAt sizes line.now at (tested_behind (tokens_from true line.now at))
        codes.old codes.new count count result }
{
    let Some(side) = side::read(line, at, sizes, codes, count) else {
        return None;
    };
    let Some((comparison, start)) = word::comparison(line, side.end) else {
        return None;
    };
    let first = FirstSide {
        seen: side.seen,
        term: side.term,
        comparison,
    };
    read_compared(line, start, first, sizes, codes, side.used)
}

// A line by its first token, where it has a form.
fn read_form(line: &[u8], sizes: Sizes, codes: &mut [u64], count: usize) -> Option<LineParts>
    requires { Limits sizes × Roomy codes.old line.now 0 count × (length codes.old ≤ 65536) }
    ensures { FormAt sizes line.now 0 (any_form (tokens line.now)) codes.old codes.new count count result }
{
    let first = lexer::next_token(line, 0, false);
    let end = first.end;
    match first.token {
        Token::Step => word_line(line, end, LineRead::Step, count),
        Token::End => word_line(line, end, LineRead::End, count),
        Token::Done => word_line(line, end, LineRead::Done, count),
        Token::Loop => read_loop(line, end, sizes, count),
        Token::If => read_tested(line, end, sizes, codes, count),
        _ => read_ruled(line, 0, TestParts::always(), sizes, codes, count),
    }
}

// A line without its byte 10, the codes of its expressions written from `count` on.
pub fn read_line(line: &[u8], sizes: Sizes, codes: &mut [u64], count: usize) -> LineParts
    requires { Limits sizes × Roomy codes.old line.now 0 count × (length codes.old ≤ 65536) }
    ensures { LineAt sizes line.now 0 (any_form (tokens line.now)) codes.old codes.new count count result }
{
    match read_form(line, sizes, codes, count) {
        Some(read) => read,
        None => LineParts::no_form(count),
    }
}

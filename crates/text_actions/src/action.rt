// Rules without their test, to the end of the line.
ghost use Rattle.std.specs.Prelude.{◌≡◌, true, false, ◌∷◌, ◌≤◌, length};
ghost use Rattle.register.specs.Shape.{Limits};
ghost use Rattle.chain_text.specs.Text.{is_capital};
ghost use Rattle.text_syntax.specs.Token as T;
ghost use Rattle.text_syntax.specs.Grammar.{local_form};
ghost use Rattle.text_places.specs.Place.{tokens_from};
ghost use Rattle.text_codes.specs.Codes.{Roomy};
ghost use Rattle.text_actions.specs.Action.{TargetAt, SentBehind, action_form, ActionAt};

use chain_text::letters;
use program::code;
use program::rule::Rule;
use register::Sizes;
use text_codes::code::TermParts;
use text_demands::rule;
use text_lexer::lexer;
use text_places::mark::Mark;
use text_places::{place, word};
use text_rules::line::Checks;
use text_sides::{expression, side};
use text_terms::term;
use text_words::token::Token;

// A rule, what is asked of it and the number of codes then.
#[derive(Clone, Copy)]
pub struct ActionParts {
    pub rule: Rule,
    pub checks: Checks,
    pub used: usize,
}

// `[u] := X` behind F, to the end of the line.
fn read_local(
    line: &[u8],
    at: usize,
    letter: u8,
    sizes: Sizes,
    codes: &mut [u64],
    count: usize,
) -> Option<ActionParts>
    requires { Limits sizes × (at ≤ length line.now) × (is_capital letter ≡ true)
        × Roomy codes.old line.now at count × (length codes.old ≤ 65536) }
    ensures { ActionAt sizes line.now at (local_form (T.letter letter ∷ tokens_from false line.now at))
        codes.old codes.new count result }
{
    let Some(start) = word::assigned(line, at) else {
        return None;
    };
    let Some(read) = expression::read(line, start, sizes, codes, count) else {
        return None;
    };
    if !word::ends(line, read.end) {
        return None;
    }
    let field = letters::field_of(letter);
    Some(ActionParts {
        rule: side::set_in(codes, field, count, read.used),
        checks: rule::local(letter, letters::names_field(sizes, letter), read.seen),
        used: side::codes_behind_set(count, read.used),
    })
}

// F and C of a remote target `F[C]`, and the place behind it.
#[derive(Clone, Copy)]
pub struct Target {
    pub letter: u8,
    pub parts: TermParts,
    pub end: usize,
}

// `F[C]` at `at`.
fn read_target(line: &[u8], at: usize, sizes: Sizes) -> Option<Target>
    requires { Limits sizes × (at ≤ length line.now) }
    ensures { TargetAt sizes line.now at result }
{
    let Some((letter, open)) = word::letter(line, at) else {
        return None;
    };
    let Some(inner) = place::mark(line, open, false, Mark::OpenSquare) else {
        return None;
    };
    let Some((parts, close)) = term::read_chain(line, inner, false, sizes) else {
        return None;
    };
    let Some(end) = place::mark(line, close, false, Mark::CloseSquare) else {
        return None;
    };
    Some(Target { letter, parts, end })
}

// `<?= X` or `+= X` behind `remote F[C]`, to the end of the line.
fn read_sent(
    line: &[u8],
    target: Target,
    sizes: Sizes,
    codes: &mut [u64],
    count: usize,
) -> Option<ActionParts>
    requires { Limits sizes × (target.end ≤ length line.now) × (is_capital target.letter ≡ true)
        × Roomy codes.old line.now target.end count × (length codes.old ≤ 65536) }
    ensures { SentBehind sizes line.now target codes.old codes.new count result }
{
    let Some((sort, start)) = word::write(line, target.end) else {
        return None;
    };
    let Some(sent) = side::read(line, start, sizes, codes, count) else {
        return None;
    };
    if !word::ends(line, sent.end) {
        return None;
    }
    let letter = target.letter;
    let field = letters::field_of(letter);
    let named = letters::names_field(sizes, letter);
    Some(ActionParts {
        rule: Rule::Remote(sort, field, code::chain(target.parts.code), sent.term),
        checks: rule::remote(sort, letter, named, target.parts, sent.seen),
        used: sent.used,
    })
}

// The rule at `at`, by its first token, to the end of the line.
pub fn read(
    line: &[u8],
    at: usize,
    sizes: Sizes,
    codes: &mut [u64],
    count: usize,
) -> Option<ActionParts>
    requires { Limits sizes × (at ≤ length line.now) × Roomy codes.old line.now at count × (length codes.old ≤ 65536) }
    ensures { ActionAt sizes line.now at (action_form (tokens_from false line.now at))
        codes.old codes.new count result }
{
    let first = lexer::next_token(line, at, false);
    match first.token {
        Token::Letter(letter) => read_local(line, first.end, letter, sizes, codes, count),
        Token::Remote => {
            let Some(target) = read_target(line, first.end, sizes) else {
                return None;
            };
            read_sent(line, target, sizes, codes, count)
        }
        _ => None,
    }
}

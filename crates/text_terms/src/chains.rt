// The chains of a line.
// They have a reader of their own, of tokens: spaces may stand between these, as they may not in `chain_text`.
ghost use Rattle.std.specs.Prelude.{false, ◌+◌, ◌-◌, ◌*◌, ◌^◌, ◌≤◌, length};
ghost use Rattle.register.specs.Shape.{Limits};
ghost use Rattle.text_terms.specs.Chain.{LinkAt, ChainAt, ClosesAt};

use chain_text::letters::Letters;
use register::Sizes;
use text_places::mark::Mark;
use text_places::{place, word};

// What a chain begins with: `u`, or a letter and `[`, and the place behind.
#[derive(Clone, Copy)]
pub enum Link {
    Own(usize),
    Letter(u8, usize),
}

pub fn first_link(line: &[u8], at: usize, due: bool) -> Option<Link>
    requires { at ≤ length line.now }
    ensures { LinkAt due line.now at result }
{
    if let Some((letter, inner)) = word::letter(line, at) {
        let end = place::mark(line, inner, false, Mark::OpenSquare)?;
        return Some(Link::Letter(letter, end));
    }
    let end = place::mark(line, at, due, Mark::Own)?;
    Some(Link::Own(end))
}

// The place behind `]` that stands n times.
fn closes(line: &[u8], at: usize, n: usize) -> Option<usize>
    requires { at ≤ length line.now }
    ensures { ClosesAt n line.now at result }
{
    let mut end = at;
    // `?` leaves the loop at the first that is missing, which a fold would do no more plainly.
    for _ in 0..n {
        end = place::mark(line, end, false, Mark::CloseSquare)?;
    }
    Some(end)
}

// A chain for whose hops there is no room: of any length, so it is read by loops.
fn overlong(line: &[u8], at: usize, sizes: Sizes, letters: Letters) -> Option<(Letters, usize)>
    requires { Limits sizes × (letters.packed + 5 ≤ 5 * 8 ^ 16) × (at ≤ length line.now) }
    ensures { ChainAt sizes 0 letters false line.now at result }
{
    let mut seen = letters;
    let mut i = at;
    let mut hops = 0;
    // How many letters there are is known only where they end.
    loop {
        match first_link(line, i, false)? {
            Link::Letter(letter, end) => {
                seen = seen.step(sizes, 0, letter);
                i = end;
                hops += 1;
            }
            Link::Own(end) => {
                let last = closes(line, end, hops)?;
                return Some((seen, last));
            }
        }
    }
}

// The chain at `at`, its letters and the place behind: `u`, or a letter and, in brackets, a chain with room for one hop less.
pub fn read(
    line: &[u8],
    at: usize,
    sizes: Sizes,
    letters: Letters,
    room: usize,
) -> Option<(Letters, usize)>
    requires { Limits sizes × (room ≤ 16) × (letters.packed + 5 ≤ 5 * 8 ^ (16 - room)) × (at ≤ length line.now) }
    ensures { ChainAt sizes room letters false line.now at result }
{
    if room == 0 {
        return overlong(line, at, sizes, letters);
    }
    match first_link(line, at, false)? {
        Link::Own(end) => Some((letters, end)),
        Link::Letter(letter, end) => {
            let next = letters.step(sizes, room, letter);
            let (all, closing) = read(line, end, sizes, next, room - 1)?;
            let last = place::mark(line, closing, false, Mark::CloseSquare)?;
            Some((all, last))
        }
    }
}

// The text of a chain.
// It has a reader of its own, of bytes: no spaces may stand in it, as they may between the tokens of `text_terms`.
ghost use Rattle.std.specs.Prelude.{◌≡◌, ◌+◌, ◌-◌, ◌*◌, ◌^◌, ◌≤◌, length, drop};
ghost use Rattle.register.specs.Shape.{Limits};
ghost use Rattle.chain_text.specs.Text.{form};
ghost use Rattle.chain_text.specs.Scan.{starts_with, opens, closes, scanned_from, scanned, Opens};

use crate::letters;
use crate::letters::Letters;
use register::Sizes;

// Whether byte b stands at `at`.
pub fn starts_with(text: &[u8], at: usize, b: u8) -> bool
    ensures { result ≡ starts_with b (drop at text.now) }
{
    at < text.len() && text[at] == b
}

// Whether a field letter and `[` stand at `at`.
pub fn opens_at(text: &[u8], at: usize) -> bool
    ensures { result ≡ opens (drop at text.now) }
{
    if text.len().saturating_sub(1) <= at {
        return false;
    }
    letters::is_capital(text[at]) & (text[at + 1] == b'[')
}

// All the letters that open from `at` on, where there is room for no more hops, and the place behind them. Two bytes go
// to a letter, so the loop counts its place itself.
fn open_letters(text: &[u8], at: usize, sizes: Sizes, letters: Letters) -> (Letters, usize)
    requires { Limits sizes × (letters.packed + 5 ≤ 5 * 8 ^ 16) × (at ≤ length text.now) }
    ensures { Opens sizes letters at (drop at text.now) result }
{
    let mut seen = letters;
    let mut i = at;
    while opens_at(text, i) {
        seen = seen.step(sizes, 0, text[i]);
        i += 2;
    }
    (seen, i)
}

// Whether `]` stands n times from `at` on.
fn closes_at(text: &[u8], at: usize, n: usize) -> bool
    requires { at ≤ length text.now }
    ensures { result ≡ closes n (drop at text.now) }
{
    for i in 0..n {
        if !starts_with(text, at + i, b']') {
            return false;
        }
    }
    true
}

// A chain with more hops than there is room for: of any length, so it is read by loops.
fn overlong(text: &[u8], at: usize, sizes: Sizes, letters: Letters) -> Option<(Letters, usize)>
    requires { Limits sizes × (letters.packed + 5 ≤ 5 * 8 ^ 16) × (at ≤ length text.now) }
    ensures { result ≡ scanned_from sizes 0 letters at (form (drop at text.now)) }
{
    let (seen, end) = open_letters(text, at, sizes, letters);
    let hops = (end - at) / 2;
    if !starts_with(text, end, b'u') {
        return None;
    }
    if !closes_at(text, end + 1, hops) {
        return None;
    }
    Some((seen, end + 1 + hops))
}

// The chain that stands at `at` and where its text ends: `u`, or a letter and, in brackets, a chain with room for one
// hop less.
fn read(
    text: &[u8],
    at: usize,
    sizes: Sizes,
    letters: Letters,
    room: usize,
) -> Option<(Letters, usize)>
    requires { Limits sizes × (room ≤ 16) × (letters.packed + 5 ≤ 5 * 8 ^ (16 - room)) × (at ≤ length text.now) }
    ensures { result ≡ scanned_from sizes room letters at (form (drop at text.now)) }
{
    if starts_with(text, at, b'u') {
        return Some((letters, at + 1));
    }
    if !opens_at(text, at) {
        return None;
    }
    if room == 0 {
        return overlong(text, at, sizes, letters);
    }
    let next = letters.step(sizes, room, text[at]);
    let (inner, end) = read(text, at + 2, sizes, next, room - 1)?;
    if !starts_with(text, end, b']') {
        return None;
    }
    Some((inner, end + 1))
}

// The chain that stands at `at` and where its text ends, with at most 16 hops packed.
pub fn scan(text: &[u8], at: usize, sizes: Sizes) -> Option<(Letters, usize)>
    requires { Limits sizes × (at ≤ length text.now) }
    ensures { result ≡ scanned sizes at (form (drop at text.now)) }
{
    read(text, at, sizes, Letters::NONE, 16)
}

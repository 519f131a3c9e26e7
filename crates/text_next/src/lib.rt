// The first line of a text from a place on: where it ends, and its reading.
#![tactic(auto)]

ghost use Rattle.std.specs.Prelude.{◌≡◌, ◌+◌, ◌≤◌, ◌<◌, length, drop};
ghost use Rattle.register.specs.Shape.{Limits};
ghost use Rattle.text_next.specs.Front.{line_bytes, first_form, CodeRoom, LineNext};

use register::Sizes;
use text_lines::line;
use text_lines::line::LineParts;

// Where the line that begins at `at` ends: at its byte 10, or at the end of the text.
pub fn line_end(text: &[u8], at: usize) -> usize
    requires { at ≤ length text.now }
    ensures { result ≡ at + length (line_bytes (drop at text.now)) }
{
    match text[at..].iter().position(|b| *b == b'\n') {
        Some(bytes) => at + bytes,
        None => text.len(),
    }
}

// The line from `at` to `end`, the codes of its expressions written from `count` on; "a last line without byte 10" has no
// form.
pub fn read_first(
    text: &[u8],
    at: usize,
    end: usize,
    sizes: Sizes,
    codes: &mut [u64],
    count: usize,
) -> LineParts
    requires { Limits sizes × (at < length text.now) × (end ≡ at + length (line_bytes (drop at text.now))) × (count ≤ at)
        × CodeRoom (length text.now) codes.old }
    ensures { LineNext sizes (first_form (drop at text.now)) end codes.old codes.new count result }
{
    if text.len() <= end {
        return LineParts::no_form(count);
    }
    line::read_line(&text[at..end], sizes, codes, count)
}

// Numbers of a rules text.
#![tactic(auto)]

ghost use Rattle.std.specs.Prelude.{◌≡◌, true, ◌+◌, ◌-◌, ◌*◌, ◌≤◌, length, drop};
ghost use Rattle.text_numerals.specs.Numeral.{is_digit, is_numeral, numeral, capped, signed_value, number_form, signed_form};
ghost use Rattle.text_numbers.specs.Numbers.{ReadsDigits, ReadsNumeral, digits_read, number_read};

use chain_text::text;

// One more digit behind a number.
fn with_digit(n: u64, b: u8) -> u64
    requires { (n ≤ 2147483649) × (is_digit b ≡ true) }
    ensures { result ≡ capped (10 * n + (b - 48)) }
{
    let next = 10 * n + (b - b'0') as u64;
    next.min(2147483649)
}

// What digits write, and the place behind them. Any value from 2,147,483,649 on counts as that one, out of range all the same.
#[derive(Clone, Copy)]
pub struct Digits {
    pub value: u64,
    pub end: usize,
}

// The digits from `at` on, behind a number n that is written before them.
fn digits_at(line: &[u8], at: usize, n: u64) -> Digits
    requires { (at ≤ length line.now) × (n ≤ 2147483649) }
    ensures { ReadsDigits at n (drop at line.now) result }
{
    let mut value = n;
    for (i, b) in line[at..].iter().enumerate() {
        if !b.is_ascii_digit() {
            return Digits { value, end: at + i };
        }
        value = with_digit(value, *b);
    }
    Digits {
        value,
        end: line.len(),
    }
}

// What a numeral writes, in centimetres and capped as its digits are; the place behind its digits before a point; and the
// place behind all of it.
#[derive(Clone, Copy)]
pub struct Figures {
    pub value: u64,
    pub point: usize,
    pub end: usize,
}

// The numeral from `at` on, whatever the number of its digits.
fn numeral_at(line: &[u8], at: usize) -> Figures
    requires { at ≤ length line.now }
    ensures { ReadsNumeral at (drop at line.now) result }
{
    let whole = digits_at(line, at, 0);
    let point = whole.end;
    if !text::starts_with(line, point, b'.') {
        return Figures {
            value: whole.value,
            point,
            end: point,
        };
    }
    let all = digits_at(line, point + 1, whole.value);
    Figures {
        value: all.value,
        point,
        end: all.end,
    }
}

// Whether the numeral at `at` is written as it may be, behind a minus or not. A point and two digits take three places.
fn is_numeral(line: &[u8], at: usize, figures: Figures, negative: bool) -> bool
    requires { ReadsNumeral at (drop at line.now) figures }
    ensures { result ≡ is_numeral negative (numeral (drop at line.now)) }
{
    let point = figures.point;
    if point == at {
        return false;
    }
    let leading_zero = (line[at] == b'0') & (1 < point - at);
    let behind = figures.end - point;
    let decimals_fit = (behind == 0) | (behind == 3);
    let minus_zero = negative & (figures.value == 0);
    !leading_zero & (decimals_fit & !minus_zero)
}

// A number behind a minus or not.
fn signed_value(negative: bool, n: u64) -> i64
    requires { n ≤ 2147483649 }
    ensures { result ≡ signed_value negative n }
{
    let value = n as i64;
    if negative { -value } else { value }
}

// The number whose digits stand from `at` on, behind a minus or not: capped as its digits are, and the place behind it.
fn signed_digits(line: &[u8], at: usize, negative: bool) -> Option<(i64, usize)>
    requires { at ≤ length line.now }
    ensures { result ≡ digits_read at (signed_form negative (drop at line.now)) }
{
    let figures = numeral_at(line, at);
    if !is_numeral(line, at, figures, negative) {
        return None;
    }
    Some((signed_value(negative, figures.value), figures.end))
}

// The number at `at`, capped as its digits are, and the place behind it.
pub fn read_number(line: &[u8], at: usize) -> Option<(i64, usize)>
    requires { at ≤ length line.now }
    ensures { result ≡ number_read at (number_form (drop at line.now)) }
{
    if text::starts_with(line, at, b'-') {
        return signed_digits(line, at + 1, true);
    }
    signed_digits(line, at, false)
}

// Signed 32-bit values: as four bytes of a file, as indices, and their sums and order.
#![tactic(auto)]

ghost use Rattle.std.specs.Prelude.{◌≡◌, ◌+◌, ◌≤◌, ◌<◌, T, ℤ, pos, nat_abs, ◌+ℤ◌, ◌-ℤ◌, ◌*ℤ◌, length};
ghost use Rattle.std.proofs.lemmas.List.Edits.{sets};
ghost use Rattle.std.specs.Int.Signed.{mag, lt_z, non_neg};
ghost use Rattle.std.specs.Int.{w32};
ghost use Rattle.std.proofs.Common.{SFits, to_z, of_z};
ghost use Rattle.integers.specs.Bytes.{four_bytes, word_at, value_at, value_bytes};
ghost use Rattle.integers.specs.Factor.{factor};
ghost use Rattle.integers.specs.Range.{sum_of, eq_z, is_index};

#[tactic(auto, unfolding(crate::specs::Bytes::four_bytes))]
pub fn word(a: u8, b: u8, c: u8, d: u8) -> u32
    ensures { result ≡ four_bytes a b c d }
{
    u32::from_le_bytes([a, b, c, d])
}

#[tactic(auto, unfolding(crate::specs::Bytes::word_at))]
pub fn word_at(s: &[u8], at: usize) -> u32
    requires { at + 4 ≤ length s.now }
    ensures { result ≡ word_at s.now at }
{
    word(s[at], s[at + 1], s[at + 2], s[at + 3])
}

// The value whose bits are those of `bits`.
pub fn signed(bits: u32) -> i32
    ensures { result ≡ to_z w32 bits }
{
    bits.cast_signed()
}

#[tactic(auto, unfolding(crate::specs::Bytes::value_at))]
pub fn value_at(s: &[u8], at: usize) -> i32
    requires { at + 4 ≤ length s.now }
    ensures { result ≡ value_at s.now at }
{
    signed(word_at(s, at))
}

// The four bytes of `value`, stored at `at`.
#[tactic(auto, unfolding(crate::specs::Bytes::value_bytes, crate::specs::Bytes::word_bytes))]
pub fn put_value(s: &mut [u8], at: usize, value: i32)
    requires { at + 4 ≤ length s.old }
    ensures { s.new ≡ sets s.old at (value_bytes value) }
{
    let [a, b, c, d] = value.to_le_bytes();
    s[at] = a;
    s[at + 1] = b;
    s[at + 2] = c;
    s[at + 3] = d;
}

// The bits of `value`.
pub fn unsigned(value: i32) -> u32
    ensures { result ≡ of_z w32 value }
{
    value.cast_unsigned()
}

// It stands beside `in_range`, and `subtract` too, since a page names them (docs/PROMISES.md).
pub fn add(a: i32, b: i32) -> Option<i32>
    ensures { result ≡ sum_of (a +ℤ b) }
{
    in_range(a as i64 + b as i64)
}

pub fn subtract(a: i32, b: i32) -> Option<i32>
    ensures { result ≡ sum_of (a -ℤ b) }
{
    in_range(a as i64 - b as i64)
}

// A value times the factor of a mark: 0 for mark 0, 1 for marks 1 and 2, without a branch on the mark.
#[tactic(auto, unfolding(crate::specs::Factor::factor))]
pub fn times_mark(value: i32, mark: u8) -> i32
    requires { mark ≤ 2 }
    ensures { result ≡ value *ℤ pos (factor mark) }
{
    value * (mark != 0) as i32
}

// A sum as a value, none where it leaves the range of one.
#[tactic(auto, unfolding(crate::specs::Range::sum_of, crate::specs::Range::in_range))]
pub fn in_range(sum: i64) -> Option<i32>
    ensures { result ≡ sum_of sum }
{
    i32::try_from(sum).ok()
}

pub fn less(a: i32, b: i32) -> bool
    ensures { result ≡ lt_z a b }
{
    a < b
}

#[tactic(auto, unfolding(crate::specs::Range::eq_z))]
pub fn equal(a: i32, b: i32) -> bool
    ensures { result ≡ eq_z a b }
{
    a == b
}

// Whether a value is an index below n.
#[tactic(auto, unfolding(crate::specs::Range::is_index))]
pub fn is_index(n: usize, value: i32) -> bool
    requires { n < 2147483648 }
    ensures { result ≡ is_index n value }
{
    0 <= value && value < of_index(n)
}

// A value that is not negative, as an index.
// `as` here and in `of_index`: the clause says that no bit is lost, and hot loops call them.
pub fn index(value: i32) -> usize
    requires { T (non_neg value) }
    ensures { result ≡ nat_abs value }
{
    value as usize
}

// An index, as a value.
pub fn of_index(index: usize) -> i32
    requires { index < 2147483648 }
    ensures { result ≡ pos index }
{
    index as i32
}

pub fn widen(value: i32) -> i64
    ensures { result ≡ value }
{
    value as i64
}

// A value of 32 bits that is held in 64.
pub fn narrow(value: i64) -> i32
    requires { SFits w32 value }
    ensures { result ≡ value }
{
    value as i32
}

// An amount added to a total that is far from the ends of 64 bits.
pub fn increase(total: i64, amount: i32) -> i64
    requires { mag total < 4611686018427387904 }
    ensures { result ≡ total +ℤ amount }
{
    total + amount as i64
}

pub fn is_below(amount: i32, total: i64) -> bool
    ensures { result ≡ lt_z amount total }
{
    (amount as i64) < total
}

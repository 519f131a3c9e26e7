// A hop word packed into one number.
ghost use Rattle.std.specs.Prelude.{◌≡◌, ◌+◌, ◌*◌, ◌≤◌, ◌<◌, drop};
ghost use Rattle.chain.specs.Word.{push as pushOf, unpack, FirstHop};

// One more hop in front.
#[tactic(auto, unfolding(crate::specs::Word::push))]
pub fn push(packed: u64, field: u64) -> u64
    requires { field + 8 * packed + 9 < 18446744073709551616 }
    ensures { result ≡ pushOf packed field }
{
    if packed == 0 {
        field + 1
    } else {
        field + 8 * packed + 9
    }
}

// The field of a chain's innermost hop.
pub fn first_hop(chain: u64) -> u64
    requires { 1 ≤ chain }
    ensures { FirstHop result (unpack chain) }
{
    if chain <= 16 {
        chain - 1
    } else {
        (chain - 9) % 8
    }
}

// The chain behind it.
pub fn rest_hops(chain: u64) -> u64
    ensures { unpack result ≡ drop 1 (unpack chain) }
{
    if chain <= 16 { 0 } else { (chain - 9) / 8 }
}

// Packed chains taken apart: their number of hops, and two parts.
ghost use Rattle.std.specs.Prelude.{◌≡◌, ◌≤◌, length, drop};
ghost use Rattle.chain.specs.Word.{unpack};
ghost use Rattle.plan_theory.specs.Plan.{half as half_of};
ghost use Rattle.plan_keys.specs.Keys.{SplitAt, HalvesOf};

use chain::packed;

// The hops are taken off one by one: a packed word is no slice that could be walked.
pub fn hops(chain: u64) -> u64
    ensures { result ≡ length (unpack chain) }
{
    let mut left = chain;
    let mut count = 0;
    while left != 0 {
        left = packed::rest_hops(left);
        count += 1;
    }
    count
}

// The chain behind its first h hops.
pub fn rest(chain: u64, h: u64) -> u64
    ensures { unpack result ≡ drop h (unpack chain) }
{
    let mut left = chain;
    for _ in 0..h {
        left = packed::rest_hops(left);
    }
    left
}

// Document 01's h: the largest power of two below a number of hops.
#[tactic(auto, using(crate::proofs::Words::half_is))]
fn half(hops: u64) -> u64
    requires { (2 ≤ hops) × (hops ≤ 16) }
    ensures { result ≡ half_of hops }
{
    hops.next_power_of_two() / 2
}

// Document 01's parts a and b of a chain.
#[derive(Clone, Copy, Debug, PartialEq, Eq)]
pub struct Halves {
    pub front: u64,
    pub rest: u64,
}

// The first h hops of a chain, and the chain behind them, taken apart hop by hop.
fn split_at(chain: u64, h: u64) -> Halves
    requires { (h ≤ 16) × (h ≤ length (unpack chain)) }
    ensures { SplitAt h (unpack chain) result }
{
    if h == 0 {
        return Halves {
            front: 0,
            rest: chain,
        };
    }
    let first = packed::first_hop(chain);
    let inner = packed::rest_hops(chain);
    let behind = split_at(inner, h - 1);
    Halves {
        front: packed::push(behind.front, first),
        rest: behind.rest,
    }
}

pub fn split(chain: u64) -> Halves
    requires { (2 ≤ length (unpack chain)) × (length (unpack chain) ≤ 16) }
    ensures { HalvesOf (unpack chain) result }
{
    split_at(chain, half(hops(chain)))
}

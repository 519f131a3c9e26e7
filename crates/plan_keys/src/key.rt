// A line's key: twice its packed chain for Back, and one more for Read.
ghost use Rattle.std.specs.Prelude.{◌≡◌, ◌≤◌, leb, length};
ghost use Rattle.chain.specs.Word.{unpack};
ghost use Rattle.plan_theory.specs.Plan.{read as read_of, word, hops, line_from};
ghost use Rattle.plan_keys.specs.Keys.{fact_of, kind, NeedsOf};

use crate::word::split;

// The largest key of a chain of at most one hop.
pub const ONE_HOP: u64 = 33;

#[derive(Clone, Copy, Debug, PartialEq, Eq)]
pub enum Kind {
    Back,
    Read,
}

// The keys of a line's two needs.
#[derive(Clone, Copy, Debug, PartialEq, Eq)]
pub struct Needs {
    pub back: u64,
    pub read: u64,
}

pub fn read(chain: u64) -> u64
    requires { length (unpack chain) ≤ 16 }
    ensures { fact_of result ≡ read_of (unpack chain) }
{
    2 * chain + 1
}

pub fn kind_of(key: u64) -> Kind
    ensures { result ≡ kind (fact_of key) }
{
    if key % 2 == 0 { Kind::Back } else { Kind::Read }
}

pub fn chain_of(key: u64) -> u64
    ensures { unpack result ≡ word (fact_of key) }
{
    key / 2
}

pub fn has_line(key: u64) -> bool
    ensures { result ≡ leb (line_from (fact_of key)) (hops (fact_of key)) }
{
    match kind_of(key) {
        Kind::Back => 1 < key,
        Kind::Read => ONE_HOP < key,
    }
}

pub fn needs_of(key: u64) -> Needs
    requires { (2 ≤ hops (fact_of key)) × (hops (fact_of key) ≤ 16) }
    ensures { NeedsOf (fact_of key) result }
{
    let halves = split(key / 2);
    Needs {
        back: 2 * halves.front,
        read: 2 * halves.rest + 1,
    }
}

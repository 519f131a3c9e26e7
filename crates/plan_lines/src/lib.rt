// The plan of a step's readings: its lines, their rounds, and which lines their needs are. `plan_builder` adds a reading to one.
#![tactic(auto)]

ghost use Rattle.std.specs.Prelude.{◌≡◌, [], ◌∷◌, ◌++◌, suc, ◌≤◌, ◌<◌, max, map, length, get_or};
ghost use Rattle.plan_theory.specs.Plan.{round as roundOf};
ghost use Rattle.plan_theory.specs.Promise.{Ordered};
ghost use Rattle.plan_keys.specs.Keys.{fact_of};
ghost use Rattle.plan_lines.specs.Held.{facts, settled, place, index, first_line, Keyed, LineColumn, LineOf, NeedsReady, LastOf, HoldsLines, ExtendedTo};

use plan_keys::key;
use plan_keys::key::Needs;

// At most 64 lines. Line i, from 0, has its key, its round, and the lines of its two needs, 64 where it needs none. It is four
// arrays and no array of lines, since a search walks the keys alone, and the clauses and theorems of the crates above name the
// columns.
#[derive(Clone, Copy, Debug, PartialEq, Eq)]
pub struct Plan {
    pub keys: [u64; 64],
    pub rounds: [u8; 64],
    pub backs: [u8; 64],
    pub reads: [u8; 64],
    pub count: usize,
}

// One line of a plan.
#[derive(Clone, Copy, Debug, PartialEq, Eq)]
pub struct Line {
    pub key: u64,
    pub round: u8,
    pub back: u8,
    pub read: u8,
}

// A 65th line would be needed.
#[derive(Clone, Copy, Debug, PartialEq, Eq)]
pub struct Full;

// The line of a need that has none. It stands among the lines of the plan's arrays, so it is a number and no None.
const NO_LINE: u8 = 64;

// The place of a key.
#[tactic(auto, using(crate::proofs::Search::place_first, crate::proofs::Search::place_none))]
fn first_place(keys: &[u64], key: u64) -> Option<usize>
    ensures { result ≡ place (map fact_of keys.now) (fact_of key) }
{
    keys.iter().position(|k| *k == key)
}

// The same where each stands only once. The needs of a new line mostly are the last lines, so that their search begins there.
#[tactic(auto, using(crate::proofs::Search::place_last, crate::proofs::Search::place_none))]
fn last_place(keys: &[u64], key: u64) -> Option<usize>
    requires { Ordered (map fact_of keys.now) }
    ensures { result ≡ place (map fact_of keys.now) (fact_of key) }
{
    keys.iter().rposition(|k| *k == key)
}

impl Plan {
    pub fn empty() -> Plan
        ensures { HoldsLines result [] }
    {
        Plan {
            keys: [0; 64],
            rounds: [0; 64],
            backs: [0; 64],
            reads: [0; 64],
            count: 0,
        }
    }

    // The place of a line.
    pub fn find(&self, key: u64) -> Option<usize>
        requires { Keyed self.now.keys self.now.count }
        ensures { result ≡ place (facts self.now) (fact_of key) }
    {
        first_place(&self.keys[..self.count], key)
    }

    // Whether a fact adds no line: it has none, or is listed.
    pub fn is_settled(&self, key: u64) -> bool
        requires { Keyed self.now.keys self.now.count }
        ensures { result ≡ settled (facts self.now) (fact_of key) }
    {
        !key::has_line(key) || self.find(key).is_some()
    }

    // The line of a need. One without a line of its own is not searched for.
    fn index_of(&self, key: u64) -> u8
        requires { Keyed self.now.keys self.now.count × Ordered (facts self.now) }
        ensures { result ≡ index (facts self.now) (fact_of key) }
    {
        if !key::has_line(key) {
            return NO_LINE;
        }
        match last_place(&self.keys[..self.count], key) {
            Some(i) => i as u8,
            None => NO_LINE,
        }
    }

    // The round of a need's line, 0 where it has none.
    fn round_at(&self, index: u8) -> u8
        ensures { result ≡ get_or self.now.rounds index 0 }
    {
        self.rounds.get(index as usize).copied().unwrap_or(0)
    }

    // One more than the later of two rounds of needs.
    fn round_after(&self, back: u8, read: u8) -> u8
        requires { (get_or self.now.rounds back 0 < 255) × (get_or self.now.rounds read 0 < 255) }
        ensures { result ≡ suc (max (get_or self.now.rounds back 0) (get_or self.now.rounds read 0)) }
    {
        self.round_at(back).max(self.round_at(read)) + 1
    }

    // The line of a fact whose two needs are had.
    pub fn line_after(&self, key: u64, needs: Needs) -> Line
        requires { Keyed self.now.keys self.now.count × Ordered (facts self.now)
            × LineColumn self.now.rounds (facts self.now) roundOf × NeedsReady (facts self.now) key needs }
        ensures { (result.key ≡ key) × LineOf (facts self.now) result }
    {
        let back = self.index_of(needs.back);
        let read = self.index_of(needs.read);
        let round = self.round_after(back, read);
        Line {
            key,
            round,
            back,
            read,
        }
    }

    // One line more, where there is room. Where there is none, no more than 64 lines are counted.
    pub fn append(&mut self, line: Line) -> Result<(), Full>
        requires { HoldsLines self.old (facts self.old) × LineOf (facts self.old) line }
        ensures { ExtendedTo (facts self.old ++ (fact_of line.key ∷ [])) self.new result × Keyed self.new.keys self.new.count }
    {
        let i = self.count;
        if i == 64 {
            return Err(Full);
        }
        self.keys[i] = line.key;
        self.rounds[i] = line.round;
        self.backs[i] = line.back;
        self.reads[i] = line.read;
        self.count += 1;
        Ok(())
    }

    // The last round, 0 where there is no line.
    pub fn last_round(&self) -> u8
        requires { self.now.count ≤ 64 }
        ensures { LastOf self.now.rounds self.now.count result }
    {
        let mut latest: u8 = 0;
        for i in 0..self.count {
            latest = latest.max(self.rounds[i]);
        }
        latest
    }
}

// The line of Back of one hop, which needs nothing.
pub fn first_line(key: u64) -> Line
    ensures { result ≡ first_line key }
{
    Line {
        key,
        round: 1,
        back: NO_LINE,
        read: NO_LINE,
    }
}

// A plan's lines as the three arrays of the C interface.
#![tactic(auto)]

ghost use Rattle.std.specs.Prelude.{◌≡◌, map, ◌<◌, get_or};
ghost use Rattle.chain.specs.Word.{unpack};
ghost use Rattle.plan_keys.specs.Keys.{fact_of};
ghost use Rattle.plan_lines.specs.Held.{facts, HoldsLines};
ghost use Rattle.api_plan.specs.PlanArrays.{flag_number, kind_number, letter_of, kind_at, letter_at, round_at, plan_lines, PlacesHold, PlanArrays};

use chain::packed;
use plan_keys::key::Kind;
use plan_keys::{key, word};
use plan_lines::Plan;

// The number of the kind of a line's key.
fn kind_number(key: u64) -> u8
    ensures { result ≡ kind_number (fact_of key) }
{
    match key::kind_of(key) {
        Kind::Back => 0,
        Kind::Read => 1,
    }
}

// The letter of a field.
pub fn letter(field: u64) -> u8
    requires { field < 16 }
    ensures { result ≡ letter_of field }
{
    if field < 8 {
        b'A' + field as u8
    } else {
        b'M' + (field - 8) as u8
    }
}

// The letter of a chain's hop, counted from 0 from the inside out; 0 behind the last.
fn letter_at(chain: u64, hop: u64) -> u8
    ensures { result ≡ get_or (map letter_of (unpack chain)) hop 0 }
{
    let rest = word::rest(chain, hop);
    if rest == 0 {
        0
    } else {
        letter(packed::first_hop(rest))
    }
}

fn fill_kinds(plan: &Plan, kinds: &mut [u8; 64])
    requires { HoldsLines plan.now (facts plan.now) }
    ensures { PlacesHold 0 (kind_at (plan_lines plan.now)) 64 kinds.new }
{
    *kinds = [0; 64];
    for (i, key) in plan.keys[..plan.count].iter().enumerate() {
        kinds[i] = kind_number(*key);
    }
}

// Place by place, as `letter_at` has it: a line's 16 places are not a part of an array of arrays.
fn fill_chains(plan: &Plan, chains: &mut [u8; 1024])
    requires { HoldsLines plan.now (facts plan.now) }
    ensures { PlacesHold 0 (letter_at (plan_lines plan.now)) 1024 chains.new }
{
    *chains = [0; 1024];
    for k in 0..16 * plan.count {
        let chain = key::chain_of(plan.keys[k / 16]);
        chains[k] = letter_at(chain, (k % 16) as u64);
    }
}

fn fill_rounds(plan: &Plan, rounds: &mut [u8; 64])
    requires { HoldsLines plan.now (facts plan.now) }
    ensures { PlacesHold 0 (round_at (plan_lines plan.now)) 64 rounds.new }
{
    *rounds = [0; 64];
    rounds[..plan.count].copy_from_slice(&plan.rounds[..plan.count]);
}

// The three arrays of a plan's lines.
pub fn fill(plan: &Plan, kinds: &mut [u8; 64], chains: &mut [u8; 1024], rounds: &mut [u8; 64])
    requires { HoldsLines plan.now (facts plan.now) }
    ensures { PlanArrays (plan_lines plan.now) kinds.new chains.new rounds.new }
{
    fill_kinds(plan, kinds);
    fill_chains(plan, chains);
    fill_rounds(plan, rounds);
}

// A flag as a number: whether a remote exchange follows.
#[tactic(auto, unfolding(crate::specs::PlanArrays::flag_number))]
pub fn flag_number(flag: bool) -> u64
    ensures { result ≡ flag_number flag }
{
    u64::from(flag)
}

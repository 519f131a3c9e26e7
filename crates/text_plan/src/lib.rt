// The walk over a rule, "in a rule the chains from left to right, C standing for the remote target": each chain is added to the
// plan of the step, its line is marked as wanted, and it is located there. The chains of an expression of several terms have
// their locations in its codes.
#![tactic(auto)]

ghost use Rattle.std.specs.Prelude.{◌++◌, length};
ghost use Rattle.program.specs.Terms.{TermInside, TestTerms, RuleTerms, SlotTerms};
ghost use Rattle.text_readings.specs.Readings.{Short};
ghost use Rattle.text_plan.specs.Walked.{term_words, test_words, rule_words, slot_words, TermWalked, TermsWalked, TestWalked, RuleWalked, SlotWalked};

pub mod store;

use program::location::{Location, Locations, Places};
use program::rule::{Rule, Slot, Test};
use program::term::Term;
use text_readings::Open;

// A number and an expression of several terms have the place of the chain `u`.
fn walk_term(open_step: &mut Open, codes: &mut [u64], term: Term) -> Location
    requires { Short (term_words codes.old term) × TermInside (length codes.old) term }
    ensures { TermWalked open_step.old codes.old open_step.new codes.new result term }
{
    match term {
        Term::Chain(chain) => open_step.add_chain(chain),
        Term::Number(_) => Location::Own,
        Term::Tree(from, to) => {
            open_step.add_codes(codes, from, to);
            Location::Own
        }
    }
}

fn walk_terms(open_step: &mut Open, codes: &mut [u64], x: Term, y: Term) -> Places
    requires { Short (term_words codes.old x ++ term_words codes.old y) × TermInside (length codes.old) x × TermInside (length codes.old) y }
    ensures { TermsWalked open_step.old codes.old open_step.new codes.new result x y }
{
    Places {
        first: walk_term(open_step, codes, x),
        second: walk_term(open_step, codes, y),
    }
}

fn walk_test(open_step: &mut Open, codes: &mut [u64], test: Test) -> Places
    requires { Short (test_words codes.old test) × TestTerms (TermInside (length codes.old)) test }
    ensures { TestWalked open_step.old codes.old open_step.new codes.new result test }
{
    match test {
        Test::Always => Places {
            first: Location::Own,
            second: Location::Own,
        },
        Test::When(x, _, y) => walk_terms(open_step, codes, x, y),
    }
}

fn walk_rule(open_step: &mut Open, codes: &mut [u64], rule: Rule) -> Places
    requires { Short (rule_words codes.old rule) × RuleTerms (TermInside (length codes.old)) rule }
    ensures { RuleWalked open_step.old codes.old open_step.new codes.new result rule }
{
    match rule {
        Rule::Set(_, x) => Places {
            first: walk_term(open_step, codes, x),
            second: Location::Own,
        },
        Rule::Combine(_, _, x, y) => walk_terms(open_step, codes, x, y),
        Rule::Remote(_, _, target, x) => walk_terms(open_step, codes, Term::Chain(target), x),
    }
}

// A rule with its test.
fn plan_rule(open_step: &mut Open, codes: &mut [u64], slot: Slot) -> Locations
    requires { Short (slot_words codes.old slot) × SlotTerms (TermInside (length codes.old)) slot }
    ensures { SlotWalked open_step.old codes.old open_step.new codes.new result slot }
{
    Locations {
        test: walk_test(open_step, codes, slot.test),
        rule: walk_rule(open_step, codes, slot.rule),
    }
}

// What is kept of the rules of the step that is open.
ghost use Rattle.std.specs.Prelude.{◌≡◌, true, false, ◌≤◌, get_or, set};
ghost use Rattle.text_state.specs.State.{no_rules, other_sort, more_rules, with_remote, with_rule};

use program::rule::{Rule, Sort};

// Their number, whether one is remote, which fields they write, and which of these have taken a `<?=` and which a `+=`.
#[derive(Clone, Copy)]
pub struct Tally {
    pub rules: usize,
    pub remote: bool,
    pub fields: [bool; 16],
    pub leasts: [bool; 16],
    pub totals: [bool; 16],
}

fn is_taken(fields: &[bool; 16], field: u64) -> bool
    ensures { result ≡ get_or fields.now field false }
{
    fields.get(field as usize).copied().unwrap_or(false)
}

fn with_taken(mut fields: [bool; 16], field: u64) -> [bool; 16]
    ensures { result ≡ set fields field true }
{
    if field < 16 {
        fields[field as usize] = true;
    }
    fields
}

impl Tally {
    #[tactic(auto, unfolding(crate::specs::State::no_rules))]
    pub fn no_rules() -> Tally
        ensures { result ≡ no_rules }
    {
        Tally {
            rules: 0,
            remote: false,
            fields: [false; 16],
            leasts: [false; 16],
            totals: [false; 16],
        }
    }

    // 14: whether a rule is of the other sort than its field has taken.
    #[tactic(auto, unfolding(crate::specs::State::other_sort))]
    pub fn is_other_sort(&self, rule: Rule) -> bool
        ensures { result ≡ other_sort self.now rule }
    {
        match rule {
            Rule::Set(..) | Rule::Combine(..) => false,
            Rule::Remote(Sort::Least, field, ..) => is_taken(&self.totals, field),
            Rule::Remote(Sort::Total, field, ..) => is_taken(&self.leasts, field),
        }
    }

    // One more rule, that writes a field and is not remote.
    #[tactic(auto, unfolding(crate::specs::State::more_rules))]
    fn more_rules(self, field: u64) -> Tally
        requires { self.rules ≤ 32 }
        ensures { result ≡ more_rules self field }
    {
        Tally {
            rules: self.rules + 1,
            fields: with_taken(self.fields, field),
            ..self
        }
    }

    // A remote rule of this sort, that writes this field.
    #[tactic(auto, unfolding(crate::specs::State::with_remote))]
    fn with_remote(self, sort: Sort, field: u64) -> Tally
        ensures { result ≡ with_remote self sort field }
    {
        match sort {
            Sort::Least => Tally {
                remote: true,
                leasts: with_taken(self.leasts, field),
                ..self
            },
            Sort::Total => Tally {
                remote: true,
                totals: with_taken(self.totals, field),
                ..self
            },
        }
    }

    // With one more rule.
    #[tactic(auto, unfolding(crate::specs::State::with_rule))]
    pub fn with_rule(self, rule: Rule) -> Tally
        requires { self.rules ≤ 32 }
        ensures { result ≡ with_rule self rule }
    {
        match rule {
            Rule::Set(field, ..) | Rule::Combine(field, ..) => self.more_rules(field),
            Rule::Remote(sort, field, ..) => self.more_rules(field).with_remote(sort, field),
        }
    }
}

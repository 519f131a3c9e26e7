// Loops: the one around the place that a text is read to, and where a step stands in one.
ghost use Rattle.std.specs.Prelude.{◌≡◌};
ghost use Rattle.text_rules.specs.Check.{is_outside, is_used};
ghost use Rattle.text_rules.specs.Text.{setting_in, with_step, last_of};

use program::setting::Setting;

// No loop is open, or one on a field that holds no step yet, or one that does.
#[derive(Clone, Copy, Debug, PartialEq, Eq)]
pub enum Around {
    Outside,
    Unused(u64),
    Used(u64),
}

impl Around {
    #[tactic(auto, unfolding(crate::specs::Check::is_outside))]
    pub fn is_outside(self) -> bool
        ensures { result ≡ is_outside self }
    {
        matches!(self, Around::Outside)
    }

    #[tactic(auto, unfolding(crate::specs::Check::is_used))]
    pub fn is_used(self) -> bool
        ensures { result ≡ is_used self }
    {
        matches!(self, Around::Used(_))
    }

    // Where the next step stands.
    #[tactic(auto, unfolding(crate::specs::Text::setting_in))]
    pub fn setting_in(self) -> Setting
        ensures { result ≡ setting_in self }
    {
        match self {
            Around::Outside => Setting::Single,
            Around::Unused(field) => Setting::Looped(field, true, false),
            Around::Used(field) => Setting::Looped(field, false, false),
        }
    }

    // The same place behind a step.
    #[tactic(auto, unfolding(crate::specs::Text::with_step))]
    pub fn with_step(self) -> Around
        ensures { result ≡ with_step self }
    {
        match self {
            Around::Unused(field) => Around::Used(field),
            Around::Outside | Around::Used(_) => self,
        }
    }
}

// The step is the last of its loop.
#[tactic(auto, unfolding(crate::specs::Text::last_of))]
pub fn last_of(setting: Setting) -> Setting
    ensures { result ≡ last_of setting }
{
    match setting {
        Setting::Single => setting,
        Setting::Looped(field, first, _) => Setting::Looped(field, first, true),
    }
}

//! Why the end of an exchange is refused.
ghost use Rattle.std.specs.Prelude.{◌≡◌};
ghost use Rattle.pol_slots.specs.Refused.{refusal_by};

use pol_events::Rule;

/// Why the end of an exchange is refused: by a rule, or because there was no memory.
#[derive(Clone, Copy, Debug, PartialEq, Eq)]
pub enum SlotRefusal {
    Rule(Rule),
    Memory,
}

impl SlotRefusal {
    /// By the rule, where there is one; else because there was no memory.
    pub(crate) fn by(rule: Option<Rule>) -> SlotRefusal
        ensures { result ≡ refusal_by rule }
    {
        match rule {
            Some(rule) => SlotRefusal::Rule(rule),
            None => SlotRefusal::Memory,
        }
    }
}

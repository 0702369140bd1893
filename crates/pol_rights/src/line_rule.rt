//! A rule of lines.
ghost use Rattle.pol_rights.specs.Rules.{PlainLineRule, plain_line_rule};

use event_json::EventKind;
use mtp_codes::Name;
use pol_policy::Rule;

/// A rule of lines: it matches where both of its lists have what is asked for; an absent list has everything.
#[derive(Drop)]
pub struct LineRule {
    /// Its name.
    pub name: Name,
    /// Whether it allows what it matches, or denies it.
    pub allow: bool,
    /// The people that it speaks of, by their names or by those of groups that they belong to: 1 to 64. Where they are
    /// absent, it speaks of everybody, and of lines that name nobody too.
    pub who: Option<Vec<Name>>,
    /// The kinds of lines: 1 to 14, none that of a command of the desk.
    pub kinds: Option<Vec<EventKind>>,
}

impl Rule for LineRule {
    ghost Plain = { PlainLineRule };

    ghost plain = { plain_line_rule };

    ghost named = { λ rule. rule.name };

    ghost allows = { λ rule. rule.allow };

    ghost people = { λ rule. rule.who };

    fn name(&self) -> Name {
        self.name
    }

    fn allows(&self) -> bool {
        self.allow
    }

    fn who(&self) -> Option<&[Name]> {
        match &self.who {
            Some(list) => Some(list.as_slice()),
            None => None,
        }
    }
}

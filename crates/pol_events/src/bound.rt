//! Which module plays which role, by the binds of a start.
ghost use Rattle.std.specs.Prelude.{◌≡◌};
ghost use Rattle.pol_events.specs.Bound.{bound_role, bound_tag, given, plain_allocation, shares_a_role};

use super::event::Bind;
use mtp_codes::Name;

/// The tag that is bound to the role; None where no bind has the role.
pub fn bound_tag(binds: &[Bind], role: Name) -> Option<Name>
    ensures { result ≡ bound_tag binds.now role }
{
    for bind in binds {
        if bind.role == role {
            return Some(bind.tag);
        }
    }
    None
}

/// The role that the tag is bound to; None where no bind has the tag.
pub fn bound_role(binds: &[Bind], tag: Name) -> Option<Name>
    ensures { result ≡ bound_role binds.now tag }
{
    for bind in binds {
        if bind.tag == tag {
            return Some(bind.role);
        }
    }
    None
}

/// Which module plays which role of a batch: the batch holds the ones, and only watches the others.
#[derive(Clone, Copy)]
pub struct Allocation<'a> {
    /// The modules that the batch holds.
    pub held: &'a [Bind],
    /// The modules that it watches.
    pub watched: &'a [Bind],
}

impl Allocation<'_> {
    /// The tag that the role has, held or watched; None where the role has none.
    pub fn tag_of(&self, role: Name) -> Option<Name>
        ensures { result ≡ bound_tag (given (plain_allocation self.now)) role }
    {
        match bound_tag(self.held, role) {
            Some(tag) => Some(tag),
            None => bound_tag(self.watched, role),
        }
    }

    /// The role that the tag has, held or watched; None where the tag has none.
    pub fn role_of(&self, tag: Name) -> Option<Name>
        ensures { result ≡ bound_role (given (plain_allocation self.now)) tag }
    {
        match bound_role(self.held, tag) {
            Some(role) => Some(role),
            None => bound_role(self.watched, tag),
        }
    }
}

/// Whether a role has a module that is held and one that is watched.
pub fn shares_a_role(held: &[Bind], watched: &[Bind]) -> bool
    ensures { result ≡ shares_a_role (record { held = held.now; watched = watched.now }) }
{
    for bind in held {
        if bound_tag(watched, bind.role).is_some() {
            return true;
        }
    }
    false
}

//! Which actor has a number.
ghost use Rattle.std.specs.Prelude.{◌≡◌, ◌<◌, length};
ghost use Rattle.pol_site.specs.Actors.{actors};
ghost use Rattle.pol_site.specs.PlainSite.{plain_site};
ghost use Rattle.pol_live.specs.Turns.{IsActorKind};

use pol_site::Site;

/// Who an actor is: the exchanger, a module or a batch by its place, or the desk.
#[derive(Clone, Copy, Debug, PartialEq, Eq)]
pub(crate) enum ActorKind {
    Exchanger,
    Module { place: usize },
    Batch { place: usize },
    Desk,
}

/// How many actors the site has: the exchanger, its modules, its batches, and the desk.
pub fn actors_of(site: &Site) -> u32
    ensures { result ≡ length (actors (plain_site site.now)) }
{
    (site.modules.len() + site.batches.len() + 2) as u32
}

/// Who the actor with this number is.
pub(crate) fn actor_kind(site: &Site, actor: u32) -> ActorKind
    requires { actor < length (actors (plain_site site.now)) }
    ensures { IsActorKind (plain_site site.now) actor result }
{
    let modules = site.modules.len();
    let batches = site.batches.len();
    let actor = actor as usize;
    if actor == 0 {
        ActorKind::Exchanger
    } else if actor <= modules {
        ActorKind::Module { place: actor - 1 }
    } else if actor <= modules + batches {
        ActorKind::Batch {
            place: actor - 1 - modules,
        }
    } else {
        ActorKind::Desk
    }
}

//! What a batch sees of the modules that play its roles.
ghost use Rattle.std.specs.Prelude.{◌≡◌};
ghost use Rattle.chart_cursor.specs.Sights.{reading_of_value, sight_of_view};

use crate::modules::{Docking, docking_of, view_of};
use crate::past::Past;
use chart_cursor::{ReadingSight, Seen, Sight};
use mtp_codes::{Name, Reading, Value};
use mtp_modes::ServiceView;
use pol_events::Allocation;

fn sight_of_view(view: Option<ServiceView>) -> Sight
    ensures { result ≡ sight_of_view view }
{
    match view {
        Some(view) => Sight::Is(view),
        None => Sight::Unreported,
    }
}

fn reading_of_value(value: Option<Value>) -> ReadingSight
    ensures { result ≡ reading_of_value value }
{
    match value {
        Some(Value::Whole(number)) => ReadingSight::Is(Reading::Whole(number)),
        Some(Value::Bit(bit)) => ReadingSight::Is(Reading::Bit(bit)),
        Some(Value::Text(_)) => ReadingSight::Unreported,
        None => ReadingSight::Unreported,
    }
}

/// What a batch with these binds sees of its modules after a history.
#[derive(Clone, Copy)]
pub struct Sights<'a> {
    pub history: &'a Past<'a, 'a>,
    pub binds: Allocation<'a>,
}

impl Seen for Sights<'_> {
    ghost use Rattle.pol_events.specs.Bound.{given, plain_allocation};
    ghost use Rattle.pol_events.specs.Events.{plain_history};
    ghost use Rattle.pol_history.specs.Looking.{past};
    ghost use Rattle.pol_history.specs.Following.{sights_by};

    ghost sights = { λ seen. sights_by (given (plain_allocation seen.binds))
        (λ tag. past tag (plain_history seen.history.now)) };

    fn tag(&self, role: Name) -> Option<Name> {
        self.binds.tag_of(role)
    }

    #[tactic(auto, using(crate::proofs::Seeing::sight_is))]
    fn view(&self, role: Name, service: Name) -> Sight {
        let Some(tag) = self.binds.tag_of(role) else {
            return Sight::Unreported;
        };
        match docking_of(self.history, tag) {
            Docking::Away { .. } => Sight::Away,
            Docking::Absent => Sight::Unreported,
            Docking::Docked => sight_of_view(view_of(self.history, tag, service)),
        }
    }

    #[tactic(auto, using(crate::proofs::Seeing::reading_is))]
    fn reading(&self, role: Name, var: Name) -> ReadingSight {
        let Some(tag) = self.binds.tag_of(role) else {
            return ReadingSight::Unreported;
        };
        match docking_of(self.history, tag) {
            Docking::Away { .. } => ReadingSight::Away,
            Docking::Absent => ReadingSight::Unreported,
            Docking::Docked => reading_of_value(self.history.value(tag, var)),
        }
    }
}

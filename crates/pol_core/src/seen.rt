//! What a batch sees of its modules, by the table.

use chart_cursor::{ReadingSight, Seen, Sight};
use mtp_codes::Name;
use pol_events::{Bind, bound_tag};
use pol_slots::Slot;
use pol_table::Table;

/// What a batch with these binds sees of its modules.
#[derive(Clone, Copy)]
pub struct TableSights<'a> {
    pub modules: &'a Table<Slot>,
    pub binds: &'a [Bind],
}

impl Seen for TableSights<'_> {
    ghost use Rattle.pol_core.specs.Seen.{table_sights};

    ghost sights = { λ seen. table_sights seen.modules.now seen.binds.now };

    fn tag(&self, role: Name) -> Option<Name> {
        bound_tag(self.binds, role)
    }

    fn view(&self, role: Name, service: Name) -> Sight {
        let Some(tag) = bound_tag(self.binds, role) else {
            return Sight::Unreported;
        };
        match self.modules.get(tag) {
            None => Sight::Unreported,
            Some(slot) => slot.view(service),
        }
    }

    fn reading(&self, role: Name, var: Name) -> ReadingSight {
        let Some(tag) = bound_tag(self.binds, role) else {
            return ReadingSight::Unreported;
        };
        match self.modules.get(tag) {
            None => ReadingSight::Unreported,
            Some(slot) => slot.reading(var),
        }
    }
}

//! The desk: it sends its commands in their order, each once the history is long enough.
ghost use Rattle.std.specs.Prelude.{◌≡◌, ◌<◌, ◌+◌, ◌^◌, slice_get, option_map};
ghost use Rattle.pol_events.specs.Events.{plain_event};
ghost use Rattle.pol_site.specs.PlainSite.{plain_site};
ghost use Rattle.pol_actors.specs.Orders.{order_event};

use pol_events::Event;
use pol_site::Site;

/// The state of the desk.
#[derive(Clone, Copy, Debug, PartialEq, Eq)]
pub struct Desk {
    /// How many of its commands it sent.
    pub ordered: usize,
}

impl Desk {
    /// The next command, as an event with the stamp 0, once the history has as many entries as it waits for. None where
    /// it waits, or where none is left.
    pub fn next_event(&self, site: &Site, length: u32) -> Option<Event>
        ensures { option_map plain_event result
            ≡ order_event length (slice_get (plain_site site.now).desk self.now.ordered) }
    {
        let order = site.desk.get(self.ordered)?;
        if length < order.after {
            return None;
        }
        Some(Event::Desk {
            at: 0,
            tag: order.tag,
            service: order.service,
            command: order.command,
        })
    }

    /// It sent one more.
    pub fn sent(&mut self)
        requires few { self.old.ordered < 2 ^ 32 }
        ensures { self.new.ordered ≡ self.old.ordered + 1 }
    {
        self.ordered += 1;
    }
}

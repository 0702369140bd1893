//! The texts of the events that an image stands for, one after another.
ghost use Rattle.std.specs.Prelude.{◌≡◌, ◌<◌, [], List, length, IfNone, IfSome};
ghost use Rattle.pol_events.specs.Events.{PlainEvent};
ghost use Rattle.pol_store.specs.Stands.{HasFirst, StandsFor};

use crate::chronicle::KeptPlant;

/// The text of the first event that an image stands for, and what follows its record: an image that stands for the
/// others. None where the image stands for no event.
pub fn first_text(image: &[u8]) -> Option<(&[u8], &[u8])>
    ensures first { IfSome result (λ cut. (events : List PlainEvent) → StandsFor events image.now
        → HasFirst cut.0.now cut.1.now events) }
    ensures none { IfNone result ((events : List PlainEvent) → StandsFor events image.now → events ≡ []) }
    ensures shorter { IfSome result (λ cut. length cut.1.now < length image.now) }
{
    pol_kept::first_text::<KeptPlant>(image)
}

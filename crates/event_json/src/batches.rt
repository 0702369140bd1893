//! The lines of events that name a batch.
ghost use Rattle.std.specs.Prelude.{◌≡◌};
ghost use Rattle.serde_json.specs.View.{view};
ghost use Rattle.mtp_json.specs.ReadsAs.{ReadsAs};
ghost use Rattle.pol_events.specs.Events.{plain_event};
ghost use Rattle.event_json.specs.Forms.{batch_in, freeze_in, start_in};
ghost use Rattle.event_json.specs.Kinds.{batch_event};
ghost use Rattle.event_json.specs.Version1.{freeze_of_version_1};

use crate::binds::{BindsJson, binds_or_none};
use crate::kind::BatchKind;
use mtp_codes::Name;
use mtp_json::{
    FaultKind, JsonRefusal, form_at, name_at, nothing_but, refused_under, truth_at, u64_at,
};
use pol_events::{Event, shares_a_role};
use serde_json::Value;
use std::alloc::Global;

/// A start by its form.
#[tactic(auto, unfolding(crate::specs::Forms::start_in))]
pub fn read_start(alloc: Global, value: &Value) -> Result<Event, JsonRefusal>
    ensures { ReadsAs plain_event result (start_in (view value.now)) }
{
    let at = u64_at(alloc, value, "at")?;
    let batch = name_at(alloc, value, "batch")?;
    let recipe = name_at(alloc, value, "recipe")?;
    let bind = form_at::<BindsJson>(alloc, value, "bind")?;
    let watch = binds_or_none(alloc, value, "watch")?;
    nothing_but(alloc, value, "ev at batch recipe bind watch")?;
    refused_under(
        alloc,
        "watch",
        shares_a_role(&bind, &watch),
        FaultKind::Repeated,
    )?;
    Ok(Event::Start {
        at,
        batch,
        recipe,
        bind,
        watch,
    })
}

/// A freeze by its form in version 1, which has no `hold`.
#[tactic(auto, unfolding(crate::specs::Forms::batch_in))]
pub fn read_freeze_of_version_1(alloc: Global, value: &Value) -> Result<Event, JsonRefusal>
    ensures { ReadsAs plain_event result (batch_in freeze_of_version_1 (view value.now)) }
{
    let at = u64_at(alloc, value, "at")?;
    let batch = name_at(alloc, value, "batch")?;
    nothing_but(alloc, value, "ev at batch")?;
    Ok(Event::Freeze {
        at,
        batch,
        hold: false,
    })
}

/// A freeze by its form.
#[tactic(auto, unfolding(crate::specs::Forms::freeze_in))]
pub fn read_freeze(alloc: Global, value: &Value) -> Result<Event, JsonRefusal>
    ensures { ReadsAs plain_event result (freeze_in (view value.now)) }
{
    let at = u64_at(alloc, value, "at")?;
    let batch = name_at(alloc, value, "batch")?;
    let hold = truth_at(alloc, value, "hold")?;
    nothing_but(alloc, value, "ev at batch hold")?;
    Ok(Event::Freeze { at, batch, hold })
}

fn of_batch(kind: BatchKind, at: u64, batch: Name) -> Event
    ensures { plain_event result ≡ batch_event kind at batch }
{
    match kind {
        BatchKind::Advance => Event::Advance { at, batch },
        BatchKind::Thaw => Event::Thaw { at, batch },
        BatchKind::Stop => Event::StopBatch { at, batch },
        BatchKind::Abandon => Event::Abandon { at, batch },
    }
}

/// An event that names a batch and nothing more, by its form.
#[tactic(auto, unfolding(crate::specs::Forms::batch_in))]
pub fn read_of_batch(alloc: Global, value: &Value, kind: BatchKind) -> Result<Event, JsonRefusal>
    ensures { ReadsAs plain_event result (batch_in (batch_event kind) (view value.now)) }
{
    let at = u64_at(alloc, value, "at")?;
    let batch = name_at(alloc, value, "batch")?;
    nothing_but(alloc, value, "ev at batch")?;
    Ok(of_batch(kind, at, batch))
}

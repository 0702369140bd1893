//! Lines with a description: a module is plugged, or takes the place of one that is away.
ghost use Rattle.std.specs.Prelude.{◌≡◌, ◌∷◌, ℕ, [], IfSome, None, Ok, codes};
ghost use Rattle.serde_json.specs.Data.{Data};
ghost use Rattle.mtp_json.specs.Form.{field};
ghost use Rattle.mtp_json.specs.Leaf.{word};
ghost use Rattle.mtp_desc.specs.PlainDescription.{plain_description};
ghost use Rattle.desc_json.specs.Form.{description_of};
ghost use Rattle.pol_events.specs.Events.{plain_event};
ghost use Rattle.event_json.specs.Forms.{event_in};
ghost use Rattle.event_json.specs.Lines.{event_of, fault_within};
ghost use Rattle.event_json.specs.Words.{kind_words};
ghost use Rattle.pol_lines.specs.Flat.{flat_data};
ghost use Rattle.pol_lines.specs.Objects.{Makes, Stands};

use crate::descriptions::DescriptionFronts;
use crate::fields::{count_at, kind_at, name_at};
use crate::flat::Member;
use crate::key::Key;
use crate::kinds::only;
use crate::objects::{Cut, ends, read_flats, read_value_at};
use arrayvec::ArrayVec;
use event_json::EventKind;
use mtp_desc::Description;
use pol_events::Event;
use std::alloc::Global;
use std::sync::Arc;

/// A plug of these flat members and this description, by its form.
fn plug_in(members: &[Member], desc: Arc<Description>) -> Option<Event>
    requires { field (codes "ev") (word kind_words) (flat_data members.now) ≡ Ok EventKind.Plug }
    ensures says { IfSome result (λ event. (value : Data) → description_of value ≡ Ok (plain_description desc.value)
        → Makes event_in (plain_event event) members.now ((codes "desc", value) ∷ [])) }
    ensures faultless { IfSome result (λ event. fault_within (plain_event event) ≡ None) }
{
    if !only(EventKind::Plug, members) {
        return None;
    }
    let at = count_at(members, Key::At, 0, u64::MAX)?;
    let tag = name_at(members, Key::Tag)?;
    Some(Event::Plug { at, tag, desc })
}

/// The end of an exchange of these flat members and this description, by its form.
fn exchange_in(members: &[Member], desc: Arc<Description>) -> Option<Event>
    requires { field (codes "ev") (word kind_words) (flat_data members.now) ≡ Ok EventKind.ExchangeEnd }
    ensures says { IfSome result (λ event. (value : Data) → description_of value ≡ Ok (plain_description desc.value)
        → Makes event_in (plain_event event) members.now ((codes "desc", value) ∷ [])) }
    ensures faultless { IfSome result (λ event. fault_within (plain_event event) ≡ None) }
{
    if !only(EventKind::ExchangeEnd, members) {
        return None;
    }
    let at = count_at(members, Key::At, 0, u64::MAX)?;
    let tag = name_at(members, Key::Tag)?;
    let ticket = count_at(members, Key::Ticket, 0, u32::MAX as u64)?;
    Some(Event::ExchangeEnd {
        at,
        tag,
        ticket: ticket as u32,
        desc,
    })
}

/// An event of these flat members and this description, by its form.
fn described_in(alloc: Global, members: &[Member], description: Description) -> Option<Event>
    ensures says { IfSome result (λ event. (value : Data) → description_of value ≡ Ok (plain_description description)
        → Makes event_in (plain_event event) members.now ((codes "desc", value) ∷ [])) }
    ensures faultless { IfSome result (λ event. fault_within (plain_event event) ≡ None) }
{
    let kind = kind_at(members, Key::Ev)?;
    let Ok(desc) = Arc::new(alloc, description) else {
        return None;
    };
    match kind {
        EventKind::Plug => plug_in(members, desc),
        EventKind::ExchangeEnd => exchange_in(members, desc),
        _ => None,
    }
}

/// The event that a line with a description says, where the description comes next.
#[inline(never)]
pub fn read_described<'a>(
    alloc: Global,
    line: &'a [u8],
    cut: Cut<'a>,
    members: &mut ArrayVec<Member<'a>, 9>,
) -> Option<Event>
    requires { (deep : ℕ) → Stands deep line.now members.old.items [] cut }
    ensures { IfSome result (λ event. event_of line.now ≡ Ok (plain_event event)) }
{
    let mut found = None;
    let cut = read_value_at::<DescriptionFronts>(alloc, cut, b"\"desc\":", &mut found)?;
    if !ends(read_flats(cut, members), line) {
        return None;
    }
    let description = found?;
    let event = described_in(alloc, members.as_slice(), description)?;
    Some(event)
}

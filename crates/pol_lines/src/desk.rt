//! Commands of the desk that name who gives them, as a journal under a policy has them.
ghost use Rattle.std.specs.Prelude.{◌≡◌, IfSome, IsTrue, None, Ok, codes};
ghost use Rattle.std.specs.List.{list_all};
ghost use Rattle.mtp_json.specs.Form.{is_listed};
ghost use Rattle.pol_events.specs.Events.{plain_event};
ghost use Rattle.pol_events.specs.Orderly.{is_orderly};
ghost use Rattle.event_json.specs.Guarded.{guarded_desk_in, guarded_in, guarded_of, plain_guarded};
ghost use Rattle.event_json.specs.Lines.{fault_within};
ghost use Rattle.pol_lines.specs.Flat.{flat_data};
ghost use Rattle.pol_lines.specs.Keys.{key_text};

use crate::fields::{command_at, count_at, kind_at, name_at};
use crate::flat::Member;
use crate::key::Key;
use crate::objects::{begin_object, ends, read_flats};
use arrayvec::ArrayVec;
use event_json::{EventKind, Guarded};
use pol_events::Event;

fn are_of_named_desk(members: &[Member]) -> bool
    ensures { result
        ≡ list_all (λ member. is_listed (codes "ev at by tag service CommandOp") (key_text member.key)) members.now }
{
    members.iter().all(|member| matches!(
        member.key,
        Key::Ev | Key::At | Key::By | Key::Tag | Key::Service | Key::CommandOp
    ))
}

/// A command of the desk by its form under a policy.
#[tactic(auto, using(crate::proofs::Lookups::only_listed), unfolding(event_json::specs::Guarded::guarded_desk_in))]
fn read_named(members: &[Member]) -> Option<Guarded>
    ensures says { IfSome result (λ said. guarded_desk_in (flat_data members.now) ≡ Ok (plain_guarded said)) }
    ensures orderly { IfSome result (λ said. IsTrue (is_orderly (plain_event said.event))) }
    ensures faultless { IfSome result (λ said. fault_within (plain_event said.event) ≡ None) }
{
    if !are_of_named_desk(members) {
        return None;
    }
    let at = count_at(members, Key::At, 0, u64::MAX)?;
    let by = name_at(members, Key::By)?;
    let tag = name_at(members, Key::Tag)?;
    let service = name_at(members, Key::Service)?;
    let command = command_at(members, Key::CommandOp)?;
    let event = Event::Desk {
        at,
        tag,
        service,
        command,
    };
    Some(Guarded {
        event,
        by: Some(by),
    })
}

/// What flat members say under a policy, where they say a command of the desk.
#[tactic(auto, unfolding(event_json::specs::Guarded::guarded_in))]
fn read_members(members: &[Member]) -> Option<Guarded>
    ensures says { IfSome result (λ said. guarded_in (flat_data members.now) ≡ Ok (plain_guarded said)) }
    ensures orderly { IfSome result (λ said. IsTrue (is_orderly (plain_event said.event))) }
    ensures faultless { IfSome result (λ said. fault_within (plain_event said.event) ≡ None) }
{
    match kind_at(members, Key::Ev)? {
        EventKind::Desk => read_named(members),
        _ => None,
    }
}

/// The command of the desk that a compact line says, with who gives it; None for some lines that say one, and for each
/// that says none.
#[inline(never)]
pub fn read_desk(line: &[u8]) -> Option<Guarded>
    ensures says { IfSome result (λ said. guarded_of line.now ≡ Ok (plain_guarded said)) }
    ensures orderly { IfSome result (λ said. IsTrue (is_orderly (plain_event said.event))) }
{
    let mut members = ArrayVec::new();
    let cut = begin_object(line)?;
    let cut = read_flats(cut, &mut members);
    if !ends(cut, line) {
        return None;
    }
    read_members(members.as_slice())
}

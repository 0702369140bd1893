//! The keys that may occur in a line of each kind.
ghost use Rattle.std.specs.Prelude.{◌≡◌};
ghost use Rattle.std.specs.List.{list_all};
ghost use Rattle.mtp_json.specs.Form.{is_listed};
ghost use Rattle.pol_lines.specs.Keys.{key_text};
ghost use Rattle.pol_lines.specs.Kinds.{keys_of};

use crate::flat::Member;
use crate::key::Key;
use event_json::EventKind;

/// Whether a key may occur in a line of a kind.
#[inline(always)]
fn may_stand(kind: EventKind, key: Key) -> bool
    ensures { result ≡ is_listed (keys_of kind) (key_text key) }
{
    match kind {
        EventKind::Plug | EventKind::Unplug | EventKind::ExchangeBegin => matches!(
            key,
            Key::Ev | Key::At | Key::Tag
        ),
        EventKind::ExchangeEnd | EventKind::ExchangeCancel => matches!(
            key,
            Key::Ev | Key::At | Key::Tag | Key::Ticket
        ),
        EventKind::Desk => matches!(
            key,
            Key::Ev | Key::At | Key::Tag | Key::Service | Key::CommandOp
        ),
        EventKind::Variable => matches!(key, Key::Ev | Key::At | Key::Tag | Key::Name | Key::Value),
        EventKind::Report => matches!(
            key,
            Key::Ev
                | Key::At
                | Key::Tag
                | Key::Service
                | Key::StateCur
                | Key::CommandEn
                | Key::Mode
                | Key::Src
                | Key::ProcedureCur
        ),
        EventKind::Recipe => matches!(key, Key::Ev | Key::At | Key::Recipe),
        EventKind::Start => matches!(key, Key::Ev | Key::At | Key::Batch | Key::Recipe),
        EventKind::Advance
        | EventKind::Freeze
        | EventKind::Thaw
        | EventKind::Stop
        | EventKind::Abandon => matches!(key, Key::Ev | Key::At | Key::Batch),
    }
}

/// Whether each member's key may occur in a line of a kind.
#[inline(always)]
pub fn only(kind: EventKind, members: &[Member]) -> bool
    ensures { result ≡ list_all (λ member. is_listed (keys_of kind) (key_text member.key)) members.now }
{
    members.iter().all(|member| may_stand(kind, member.key))
}

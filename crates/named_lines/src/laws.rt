//! Laws of what lines say in which any event may name who gives it.
ghost use Rattle.std.specs.Prelude.{◌≡◌, ℕ, List, Ok, is_some, true};
ghost use Rattle.event_json.specs.Guarded.{PlainGuarded, guarded_of, is_desk};
ghost use Rattle.event_json.specs.Lines.{event_of};
ghost use Rattle.named_lines.specs.Lines.{IsOfDesk, NamesNobody, as_guarded, by_nobody, person_at};
ghost use Rattle.named_lines.specs.Named.{PlainNamed, named_of};

/// A line that names nobody and is no command of the desk says what it says in a journal: the event, of nobody, or the
/// fault.
#[tactic(auto, using(crate::proofs::Alike::unnamed_alike))]
pub fn unnamed_lines_are_alike()
    ensures { (line : List ℕ) → NamesNobody line → (IsOfDesk line → ⊥) → named_of line ≡ by_nobody (event_of line) }
{}

/// A command of the desk says what it says under a policy: the event with its person, or the fault.
#[tactic(auto, using(crate::proofs::Alike::desk_alike))]
pub fn desk_lines_are_alike()
    ensures { (line : List ℕ) → IsOfDesk line → named_of line ≡ as_guarded (guarded_of line) }
{}

/// A line that is read under a policy says the same here.
#[tactic(auto, using(crate::proofs::Alike::guarded_alike))]
pub fn guarded_lines_are_alike()
    ensures { (line : List ℕ) (said : PlainGuarded) → guarded_of line ≡ Ok said → named_of line ≡ as_guarded (Ok said) }
{}

/// The person who is said to give an event is the one whom `by` names; where `by` names nobody, nobody is.
#[tactic(auto, using(crate::proofs::Persons::line_named))]
pub fn persons_are_named()
    ensures { (line : List ℕ) (said : PlainNamed) → named_of line ≡ Ok said → said.person ≡ person_at line }
{}

/// Each command of the desk that a line says has a person who gives it.
#[tactic(auto, using(crate::proofs::Said::desk_named))]
pub fn desk_commands_are_named()
    ensures { (line : List ℕ) (said : PlainNamed) → named_of line ≡ Ok said → is_desk said.event ≡ true
        → is_some said.person ≡ true }
{}

//! A law of what lines say.
ghost use Rattle.std.specs.Prelude.{◌≡◌, ℕ, List, Ok, true};
ghost use Rattle.pol_events.specs.Events.{PlainEvent};
ghost use Rattle.pol_events.specs.Orderly.{is_orderly};
ghost use Rattle.event_json.specs.Lines.{event_of};

/// What a line says is orderly: a recipe's chart is valid, and a start holds at most 64 modules and watches at most 64,
/// each role once.
#[tactic(auto, using(crate::proofs::Orderly::line_orderly))]
pub fn lines_are_orderly()
    ensures { (line : List ℕ) (event : PlainEvent) → event_of line ≡ Ok event → is_orderly event ≡ true }
{}

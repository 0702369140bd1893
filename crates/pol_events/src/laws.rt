//! A law of orderly starts.
ghost use Rattle.std.specs.Prelude.{◌≡◌, true};
ghost use Rattle.pol_events.specs.Bound.{PlainAllocation, given};
ghost use Rattle.pol_events.specs.Orderly.{is_allocation, roles_once};

/// No role of an orderly start occurs twice, held or watched.
#[tactic(auto, using(crate::proofs::Given::given_once))]
pub fn roles_are_given_once()
    ensures { (binds : PlainAllocation) → is_allocation binds ≡ true → roles_once (given binds) ≡ true }
{}

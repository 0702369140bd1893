//! What holds of every journal under a policy.
ghost use Rattle.std.specs.Prelude.{ℕ, List};
ghost use Rattle.pol_guard.specs.Laws.{GuardTheorem, RefusalsAreFaults};

use pol_policy::verdicts_are_judged;
use pol_removal::removal_of_events;

/// A law, whatever the input. Where it has a policy, the history that its journal leaves is legal, each command of the
/// desk in it was allowed, each denial is right and names its rule, and taking out modules takes out just their
/// entries. Where it is refused, its policy has that fault, and nothing is written. It does nothing.
#[tactic(auto, using(crate::proofs::Refusing::refusals))]
pub fn guards_are_sound()
    ensures theorem { (bytes : List ℕ) → GuardTheorem bytes }
    ensures refusals { RefusalsAreFaults }
{
    verdicts_are_judged();
    removal_of_events();
}

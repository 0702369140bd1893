//! Laws of images and histories.
ghost use Rattle.std.specs.Prelude.{◌≡◌, ℕ, List, []};
ghost use Rattle.pol_events.specs.Events.{PlainEvent};
ghost use Rattle.pol_history.specs.Looking.{History};
ghost use Rattle.pol_history.specs.Runs.{IsLegal, history_after, events_of};
ghost use Rattle.pol_store.specs.Stands.{StandsFor};

/// An image stands for at most one list of events.
pub fn images_stand_for_one_list()
    ensures { (image : List ℕ) (events others : List PlainEvent) → StandsFor events image → StandsFor others image
        → events ≡ others }
{}

/// A legal history, as every plant has, is the run of its events.
#[tactic(auto, using(crate::proofs::Histories::runs_legal))]
pub fn histories_are_runs()
    ensures { (history : History) → IsLegal history → history ≡ history_after [] (events_of history) }
{}

//! The history of an operated plant.
ghost use Rattle.std.specs.Prelude.{◌≡◌, length};
ghost use Rattle.pol_events.specs.Events.{plain_history};
ghost use Rattle.pol_history.specs.Runs.{IsOrderly};
ghost use Rattle.pol_ledger.specs.Ledgers.{ledger_state};
ghost use Rattle.pol_operate.specs.Texts.{history_in, so_far_in};

use pol_events::Entry;
use pol_ledger::Ledger;

/// The entries of a ledger's plant, one for each event that was asked for; none before the ledger was begun.
#[tactic(auto, using(crate::proofs::Histories::entries_begun, crate::proofs::Histories::entries_none))]
pub fn history_in(ledger: &Ledger) -> &[Entry]
    ensures history { plain_history result.now ≡ history_in (ledger_state ledger.now) }
    ensures many { length result.now ≡ length (so_far_in (ledger_state ledger.now)) }
    ensures orderly { IsOrderly (plain_history result.now) }
{
    if ledger.is_begun() {
        ledger.plant().history()
    } else {
        &[]
    }
}

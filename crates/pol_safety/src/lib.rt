//! The safety laws of a plant, which hold whatever journal it is given: every command was permitted before it was sent;
//! every batch log follows its chart; an advance is answered by what comes next in the runs of that chart; every event
//! keeps what holds of the batches and their modules; and no answer rests on a value that is missing. Each is a law
//! over all legal histories, the contract of a function with an empty body; `specs/Sound.antt` has them together.
//!
//! It knows nothing of how an answer is found.
//!
//! Laws alone: no test tries them.
#![tactic(auto)]

ghost use Rattle.pol_safety.specs.Advances.{AdvancesFollowCharts};
ghost use Rattle.pol_safety.specs.Charts.{LogsFollowCharts};
ghost use Rattle.pol_safety.specs.Kept.{BatchesAreKept, HoldersAreOpen, WatchersAreOpen};
ghost use Rattle.pol_safety.specs.Known.{OpenBatchesSee, StartedHaveCharts, TagsAreCounted, TagsAreDescribed};
ghost use Rattle.pol_safety.specs.Permitted.{CommandsArePermitted};
ghost use Rattle.pol_safety.specs.Sound.{HistoriesAreSound, EntriesAreRight};

use pol_history::refused_changes_nothing;

/// Each command that an answer sends was permitted by the mode, the mask and the state that the service reported last.
#[tactic(auto, using(crate::proofs::Sending::sent_was_permitted))]
pub fn commands_are_permitted()
    ensures { CommandsArePermitted }
{}

/// The chart's entries in a batch's log are a partial run of its chart, and a complete one where the batch was
/// completed.
pub fn logs_follow_charts()
    ensures { LogsFollowCharts }
{}

/// An accepted advance is of an open batch that has a chart; and where the run of the chart goes on, it is answered by
/// what comes next in that run. It is answered so only then, never while a step that was held is owed its Unhold; and a
/// step is sent Hold at most once a freeze.
#[tactic(auto, using(crate::proofs::Advances::advances_follow))]
pub fn advances_follow_charts()
    ensures { AdvancesFollowCharts }
{}

/// What is there is known: a started batch has a formed and valid chart; the tags that are counted as present are those
/// that are docked or away, each once, and each of them has a description; an open batch has a tag for each role of its
/// chart, and sees the service of each active step as it was reported.
#[tactic(auto, using(crate::proofs::Advances::started_charted, crate::proofs::Present::tags_counted, crate::proofs::Present::tags_described, crate::proofs::Keeping::batches_see))]
pub fn what_is_there_is_known()
    ensures charts { StartedHaveCharts }
    ensures tags { TagsAreCounted }
    ensures descriptions { TagsAreDescribed }
    ensures sights { OpenBatchesSee }
{}

/// Each module that an open batch binds is held by it, each one that it watches is watched by it, each of both is there
/// and covers its role; and the service of each active step was reported since its module was docked.
#[tactic(auto, using(crate::proofs::Keeping::batches_kept))]
pub fn batches_are_kept()
    ensures { BatchesAreKept }
{}

/// The batch that holds a module was started on it and isn't closed.
#[tactic(auto, using(crate::proofs::Holding::holders_open))]
pub fn holders_are_open()
    ensures { HoldersAreOpen }
{}

/// Each batch that watches a module was started to watch it and isn't closed.
#[tactic(auto, using(crate::proofs::Holding::watchers_open))]
pub fn watchers_are_open()
    ensures { WatchersAreOpen }
{}

/// All that this crate says of a history and of an entry, with what `pol_history` says, in two records.
#[tactic(auto, using(crate::proofs::Sound::histories_sound, crate::proofs::Sound::entries_right))]
pub fn histories_are_sound()
    ensures histories { HistoriesAreSound }
    ensures entries { EntriesAreRight }
{
    refused_changes_nothing();
}

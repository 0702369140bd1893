//! Compacts a journal: finds which entries of a history stay, such that the same plant goes on from them alone.
//! `specs/Compaction.antt` defines which ones stay, and that nothing later can tell the difference is the contract of
//! functions with an empty body. `kept` gives a flag for each entry, by one look back over the history and one forward.
//!
//! This crate knows nothing of disks, lines or jobs, nor of how an answer is found.
//!
//! No test tries it.
#![tactic(auto)]

ghost use Rattle.pol_compaction.specs.Alike.{AlikeAnswersAlike, LaterAnswersAlike};
ghost use Rattle.pol_compaction.specs.Alone.{LastingRunAlone};
ghost use Rattle.pol_compaction.specs.Example.{ExampleIsCompacted};
ghost use Rattle.pol_compaction.specs.Flags.{FlagsAreCompaction};
ghost use Rattle.pol_compaction.specs.Forgotten.{ClosedMayBeForgotten};
ghost use Rattle.pol_compaction.specs.Law.{AgainChangesNothing, CompactionIsNoLonger, KeptIsAnsweredAgain};
ghost use Rattle.pol_compaction.specs.Law.{LaterIsAnsweredAlike, LinesStay, OnceMoreIsAtOnce};
ghost use Rattle.pol_compaction.specs.Silent.{SilentMayBeLeftOut};

mod ahead;
mod choosing;
mod noted;
mod outlook;
mod whole;

pub use choosing::kept;

/// A history of 31 entries, of two modules and two batches, is compacted to 12.
pub fn example_is_compacted()
    ensures { ExampleIsCompacted }
{}

/// Two plants that are alike answer alike each event that names no forgotten batch and isn't refused as full.
pub fn alike_answers_alike()
    ensures { AlikeAnswersAlike }
{}

/// Whatever comes later, two plants that are alike answer alike all that names no forgotten batch and isn't refused as
/// full.
pub fn later_answers_alike()
    ensures { LaterAnswersAlike }
{}

/// The closed batches may be forgotten: without their events and those refused for another's sake the plant answers
/// whatever comes later as before, but for what names one of these batches or was refused as full.
pub fn closed_may_be_forgotten()
    ensures { ClosedMayBeForgotten }
{}

/// Any of the refused events, the waits and the commands may be left out: all other entries stay as they are.
pub fn silent_may_be_left_out()
    ensures { SilentMayBeLeftOut }
{}

/// The events that last, run by themselves, are answered as they were.
pub fn lasting_run_alone()
    ensures { LastingRunAlone }
{}

/// The events that stay of a history, run by themselves, are answered as they were; and whatever comes later is
/// answered after them as after the whole history, but for what names a batch that was closed there and what is refused
/// there as full. Then the lines of all other batches are the same. The events are orderly, as those that lines say
/// are; those that come later are any.
pub fn compaction_keeps_answers()
    ensures kept { KeptIsAnsweredAgain }
    ensures later { LaterIsAnsweredAlike }
    ensures lines { LinesStay }
{}

/// The entries of a history that are flagged, by whether each lasts and stays, are those to which it is compacted.
pub fn flags_are_compaction()
    ensures { FlagsAreCompaction }
{}

/// A compacted history is no longer than it was.
pub fn compaction_is_no_longer()
    ensures { CompactionIsNoLonger }
{}

/// Compacting again changes nothing.
pub fn again_changes_nothing()
    ensures { AgainChangesNothing }
{}

/// Compacting once more after later events is compacting them all, so it doesn't matter how often one compacts.
pub fn once_more_is_at_once()
    ensures { OnceMoreIsAtOnce }
{}

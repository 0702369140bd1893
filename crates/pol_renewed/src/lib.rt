//! Laws of what stays as it was where a plant goes on from a compacted history: what is found for new batches, what is
//! replied under a policy, and what the overview says of the plant. Each is the contract of a function with an empty
//! body; they rest on the law that the two plants are alike (`pol_compaction`).
//!
//! Laws alone: no test tries them.
#![tactic(auto)]

ghost use Rattle.pol_renewed.specs.Guarded.{CompactionCommandsAlike, CompactionRepliesAlike};
ghost use Rattle.pol_renewed.specs.Overviews.{CompactionTellsAlike};
ghost use Rattle.pol_renewed.specs.Renewed.{CompactionFindsAlike};

/// After the events that stay of a history, and whatever came later, the same modules are free, and each is described
/// and seen as after all of them; the same recipes are known, in the same order. So the same bindings are offered, and
/// the finder finds the same. The events are orderly, as those that lines say are; those that come later are any.
pub fn compaction_finds_alike()
    ensures { CompactionFindsAlike }
{}

/// Under any policy, after the events that stay of a history, and whatever came later, each line is replied to as after
/// all of them, but for those that name a batch that was closed there and those that are refused there as full. So an
/// operator's command has the same verdict and the same answer, unless the history was full. The events are orderly;
/// those that come later, and the lines, are any.
pub fn compaction_guards_alike()
    ensures replies { CompactionRepliesAlike }
    ensures commands { CompactionCommandsAlike }
{}

/// After the events that stay of a history, and whatever came later, the overview says the same of the modules, of the
/// recipes, and of each batch that wasn't closed there, as after all of them; also which commands would go out, whoever
/// may send them, and what comes next of a batch, unless the history was full. The events are orderly; those that come
/// later are any.
pub fn compaction_tells_alike()
    ensures { CompactionTellsAlike }
{}

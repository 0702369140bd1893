//! Which steps of each batch run, and which are held, by the entries of its log.
ghost use Rattle.std.specs.Prelude.{◌≡◌, ◌++◌, ◌∷◌, [], IfOk, OnOk, Some, None, if◌then◌else◌};
ghost use Rattle.std.specs.Str.{bytes_eq};
ghost use Rattle.mtp_codes.specs.Names.{is_among};
ghost use Rattle.pol_events.specs.Events.{plain_entry};
ghost use Rattle.pol_events.specs.Subjects.{accepted_batch};
ghost use Rattle.pol_history.specs.Batches.{taken};
ghost use Rattle.pol_audit.specs.Listed.{is_this, items_under};
ghost use Rattle.pol_audit.specs.Standing.{after_entry, held_more, running_more};

use crate::batches::taken;
use crate::lists::Lists;
use crate::modules::tags_without;
use chart_core::LogEntry;
use mtp_codes::Name;
use pol_events::Entry;
use std::alloc::{AllocError, Global};

/// Whether the name is one of these.
pub fn is_one_of(names: &[Name], name: Name) -> bool
    ensures { result ≡ is_among names.now name }
{
    names.iter().any(|each| *each == name)
}

fn tags_with(alloc: Global, name: Name, names: &[Name]) -> Result<Vec<Name>, AllocError>
    ensures { IfOk result (λ all. all.items ≡ names.now ++ name ∷ []) }
{
    let mut all = names.to_vec(alloc)?;
    all.push(name)?;
    Ok(all)
}

// The steps that run, after one more entry.
fn running_more(alloc: Global, names: &[Name], entry: &LogEntry) -> Result<Vec<Name>, AllocError>
    ensures { IfOk result (λ all. all.items ≡ running_more entry.now names.now) }
{
    match entry {
        LogEntry::Start { step, .. }
        | LogEntry::Finish { step, .. }
        | LogEntry::Reset { step, .. } => tags_with(alloc, *step, names),
        LogEntry::End { step } | LogEntry::Stop { step, .. } | LogEntry::Left { step, .. } => {
            tags_without(alloc, *step, names)
        }
        _ => names.to_vec(alloc),
    }
}

// The steps that are held, after one more entry.
fn held_more(alloc: Global, names: &[Name], entry: &LogEntry) -> Result<Vec<Name>, AllocError>
    ensures { IfOk result (λ all. all.items ≡ held_more entry.now names.now) }
{
    match entry {
        LogEntry::Hold { step, .. } => tags_with(alloc, *step, names),
        LogEntry::Start { step, .. } | LogEntry::Unhold { step, .. } => {
            tags_without(alloc, *step, names)
        }
        _ => names.to_vec(alloc),
    }
}

/// The names of the steps of each batch that run, and of those that are held.
#[derive(Drop)]
pub struct Standings {
    pub running: Lists<Name>,
    pub held: Lists<Name>,
}

impl Standings {
    ghost use Rattle.std.specs.Prelude.{ℕ, List};

    // Takes one more entry of the batch's log.
    #[tactic(auto, using(crate::proofs::Standing::of_batch))]
    fn take(&mut self, alloc: Global, batch: Name, did: &LogEntry) -> Result<(), AllocError>
        ensures running { OnOk result ((other : List ℕ) → items_under self.new.running.named.entries other
            ≡ after_entry running_more (if bytes_eq batch other then Some did.now else None)
            (items_under self.old.running.named.entries other)) }
        ensures held { OnOk result ((other : List ℕ) → items_under self.new.held.named.entries other
            ≡ after_entry held_more (if bytes_eq batch other then Some did.now else None)
            (items_under self.old.held.named.entries other)) }
    {
        let running = running_more(alloc, self.running.of(batch), did)?;
        let held = held_more(alloc, self.held.of(batch), did)?;
        self.running.put(batch, running)?;
        self.held.put(batch, held)?;
        Ok(())
    }

    // Takes one more entry of the log of a batch, if there is one.
    fn take_of(
        &mut self,
        alloc: Global,
        batch: &Option<Name>,
        did: &LogEntry,
    ) -> Result<(), AllocError>
        ensures running { OnOk result ((other : List ℕ) → items_under self.new.running.named.entries other
            ≡ after_entry running_more (if is_this other batch.now then Some did.now else None)
            (items_under self.old.running.named.entries other)) }
        ensures held { OnOk result ((other : List ℕ) → items_under self.new.held.named.entries other
            ≡ after_entry held_more (if is_this other batch.now then Some did.now else None)
            (items_under self.old.held.named.entries other)) }
    {
        match batch {
            Some(batch) => self.take(alloc, *batch, did),
            None => Ok(()),
        }
    }

    /// Takes one more entry of the history.
    pub fn add_standing(&mut self, alloc: Global, entry: &Entry) -> Result<(), AllocError>
        ensures running { OnOk result ((batch : List ℕ) → items_under self.new.running.named.entries batch
            ≡ after_entry running_more
            (if is_this batch (accepted_batch (plain_entry entry.now)) then taken entry.now.answer else None)
            (items_under self.old.running.named.entries batch)) }
        ensures held { OnOk result ((batch : List ℕ) → items_under self.new.held.named.entries batch
            ≡ after_entry held_more
            (if is_this batch (accepted_batch (plain_entry entry.now)) then taken entry.now.answer else None)
            (items_under self.old.held.named.entries batch)) }
    {
        match taken(&entry.answer) {
            Some(did) => self.take_of(alloc, &entry.accepted_batch(), &did),
            None => Ok(()),
        }
    }
}

//! Which entries of a history stay: one look back, and one forward.
ghost use Rattle.std.specs.Prelude.{◌≡◌, ◌∷◌, [], IfOk, OnOk, length, map};
ghost use Rattle.pol_events.specs.Events.{plain_entry, plain_event, plain_history};
ghost use Rattle.pol_history.specs.Looking.{History, subject};
ghost use Rattle.pol_history.specs.Modules.{is_moving};
ghost use Rattle.pol_compaction.specs.Compaction.{compacted};
ghost use Rattle.pol_compaction.specs.Fates.{each_fate, stays_by};
ghost use Rattle.pol_compaction.specs.Flags.{flagged, stay_flags};
ghost use Rattle.pol_compaction.specs.Noted.{AreRead, is_subject_noted};

use crate::ahead::Fate;
use crate::noted::Noted;
use crate::outlook::Outlook;
use crate::whole::Whole;
use pol_events::{Entry, Event, Subject};
use pol_record::gather;
use std::alloc::{AllocError, Global};

// ---- back: what comes after each entry

// The fate of each entry, by what comes after it.
fn fates(alloc: Global, whole: &Whole<'_, '_>, history: &[Entry]) -> Result<Vec<Fate>, AllocError>
    ensures known { IfOk result (λ fates. fates.items
        ≡ each_fate (plain_history whole.now) (map plain_entry history.now)) }
    ensures all { IfOk result (λ fates. length fates.items ≡ length history.now) }
{
    let mut fates = vec![in alloc; Fate::Goes; history.len()]?;
    let mut outlook = Outlook::new(alloc);
    for place in (0..history.len()).rev() {
        fates[place] = outlook.meet(whole, &history[place])?;
    }
    Ok(fates)
}

// ---- forward: modules that were read

// Whether the event changes whether its module is docked.
fn is_moving(event: &Event) -> bool
    ensures { result ≡ is_moving (plain_event event.now) }
{
    matches!(
        event,
        Event::Plug { .. }
            | Event::Unplug { .. }
            | Event::ExchangeBegin { .. }
            | Event::ExchangeEnd { .. }
            | Event::ExchangeCancel { .. }
    )
}

// Notes the modules that the entry reads, which is newer than the entries that were looked at; a module that it moves
// wasn't read since.
fn note_read(whole: &Whole<'_, '_>, read: &mut Noted, entry: &Entry) -> Result<(), AllocError>
    ensures { OnOk result ((older : History)
        → AreRead (plain_history whole.now) read.old.named.entries older
        → AreRead (plain_history whole.now) read.new.named.entries (plain_entry entry.now ∷ older)) }
{
    if !whole.is_lasting(entry) {
        return Ok(());
    }
    match (entry.event.subject(), whole.read_by(&entry.event)) {
        (Subject::Module(tag), _) if is_moving(&entry.event) => read.put(tag, false),
        (_, Some(binds)) => {
            read.note_all(binds.held)?;
            read.note_all(binds.watched)
        }
        _ => Ok(()),
    }
}

// Whether an entry of this fate stays, by the modules that were read before it.
fn stays(fate: Fate, read: &Noted, entry: &Entry) -> bool
    ensures { result ≡ stays_by fate (is_subject_noted read.now.named.entries (subject (plain_event entry.now.event))) }
{
    match fate {
        Fate::Stays => true,
        Fate::StaysIfRead => read.has_module_of(&entry.event),
        Fate::Goes => false,
    }
}

// For each entry, whether it stays, where the fate of each is known.
fn stay_flags(
    alloc: Global,
    whole: &Whole<'_, '_>,
    fates: &[Fate],
    history: &[Entry],
) -> Result<Vec<bool>, AllocError>
    requires known { fates.now ≡ each_fate (plain_history whole.now) (map plain_entry history.now) }
    requires all { length fates.now ≡ length history.now }
    ensures { IfOk result (λ flags. flags.items
        ≡ stay_flags (plain_history whole.now) [] (map plain_entry history.now)) }
{
    let mut flags = Vec::new(alloc);
    let mut read = Noted::new(alloc);
    for place in 0..history.len() {
        let entry = &history[place];
        let stays = stays(fates[place], &read, entry);
        flags.push(stays)?;
        note_read(whole, &mut read, entry)?;
    }
    Ok(flags)
}

/// Whether each entry of a history stays where it is compacted, one flag an entry. It looks over the history once back
/// and once forward; of an entry it asks only what is known of its module then. Beside a fate and a flag for each entry
/// it keeps the starts and logs of all batches, and of each module what its services and variables report next, one
/// value of each.
pub fn kept(alloc: Global, history: &[Entry]) -> Result<Vec<bool>, AllocError>
    ensures flags { IfOk result (λ flags. flags.items
        ≡ stay_flags (plain_history history.now) [] (map plain_entry history.now)) }
    ensures kept { IfOk result (λ flags. flagged flags.items (map plain_entry history.now)
        ≡ compacted (plain_history history.now)) }
{
    let batches = gather(alloc, history)?;
    let whole = Whole {
        entries: history,
        batches: &batches,
    };
    let fates = fates(alloc, &whole, history)?;
    stay_flags(alloc, &whole, &fates, history)
}

//! An audit: it reads the lines of an input one after another, and then gives its verdict.
ghost use Rattle.std.specs.Prelude.{◌≡◌, ◌≤◌, IfOk, IsTrue, OnErr, OnOk, Some, None, length, take};
ghost use Rattle.pol_events.specs.Events.{plain_entry, plain_event};
ghost use Rattle.pol_events.specs.Orderly.{is_orderly};
ghost use Rattle.pol_audit.specs.Reading.{are_orderly};
ghost use Rattle.pol_audit.specs.declared.judging.TheConstants.{MOST_JUDGED};

use crate::closing::closing_lines;
use crate::judging::{Judged, MOST_JUDGED, judge};
use crate::tails::first_other;
use event_json::LineRefusal;
use pol_entries::read_entry;
use pol_events::Entry;
use pol_record::Verdict;
use std::alloc::{AllocError, Global};

/// What was read of an input: the entries of a history, and the lines behind them. It keeps each line that may matter.
#[derive(Drop)]
pub struct Audit {
    alloc: Global,
    entries: Vec<Entry>,
    // None in place of a line that is too long.
    behind: Vec<Option<Vec<u8>>>,
    ghost orderly: { IsTrue (are_orderly entries.items) },
}

impl Audit {
    ghost use Rattle.std.specs.Prelude.{List};
    ghost use Rattle.std.specs.Option.{option_map};
    ghost use Rattle.pol_audit.specs.Audits.{plain_audit};
    ghost use Rattle.pol_audit.specs.Reading.{after_line, is_decided, nothing_read, read_all, verdict_after};
    ghost use Rattle.pol_audit.specs.Reading.{with_behind, with_front, with_line};
    ghost use Rattle.pol_audit.specs.Verdict.{Line, by_lines, entry_on, verdict_of};

    /// Nothing was read yet.
    pub fn new(alloc: Global) -> Audit
        ensures { plain_audit result ≡ nothing_read }
    {
        Audit {
            alloc,
            entries: Vec::new(alloc),
            behind: Vec::new(alloc),
        }
    }

    // Whether no further line changes the verdict: there are more entries than are judged, or more lines behind them
    // than can be wanted.
    fn is_decided(&self) -> bool
        ensures { result ≡ is_decided (plain_audit self.now) }
    {
        self.entries.len() > MOST_JUDGED || self.behind.len() > self.entries.len() + 1
    }

    fn keep(&mut self, line: Option<Vec<u8>>) -> Result<(), AllocError>
        ensures kept { OnOk result (plain_audit self.new
            ≡ with_behind (plain_audit self.old) (option_map (λ line. line.items) line)) }
        ensures unchanged { OnErr result (plain_audit self.new ≡ plain_audit self.old) }
    {
        self.behind.push(line)?;
        Ok(())
    }

    // Keeps one more line behind the entries.
    fn keep_line(&mut self, line: &[u8]) -> Result<(), AllocError>
        ensures kept { OnOk result (plain_audit self.new ≡ with_behind (plain_audit self.old) (Some line.now)) }
        ensures unchanged { OnErr result (plain_audit self.new ≡ plain_audit self.old) }
    {
        let kept = line.to_vec(self.alloc)?;
        self.keep(Some(kept))
    }

    fn keep_entry(&mut self, entry: Entry) -> Result<(), AllocError>
        requires { IsTrue (is_orderly (plain_event entry.event)) }
        ensures kept { OnOk result (plain_audit self.new
            ≡ with_front (plain_audit self.old) (Some (plain_entry entry)) None) }
        ensures unchanged { OnErr result (plain_audit self.new ≡ plain_audit self.old) }
    {
        self.entries.push(entry)?;
        Ok(())
    }

    // Reads one more line, where each line before it was an entry.
    #[tactic(auto, using(crate::proofs::Audited::entry_read, crate::proofs::Audited::fault_read))]
    fn read_front(&mut self, line: &[u8]) -> Result<(), AllocError>
        ensures kept { OnOk result (plain_audit self.new
            ≡ with_front (plain_audit self.old) (entry_on (Some line.now)) (Some line.now)) }
        ensures unchanged { OnErr result (plain_audit self.new ≡ plain_audit self.old) }
    {
        match read_entry(self.alloc, line) {
            Ok(entry) => self.keep_entry(entry),
            Err(LineRefusal::Fault(_)) => self.keep_line(line),
            Err(LineRefusal::Memory) => Err(AllocError),
        }
    }

    // Reads one more line, which may be an entry where each line before it was one.
    fn read_next(&mut self, line: &[u8]) -> Result<(), AllocError>
        ensures kept { OnOk result (plain_audit self.new ≡ with_line (plain_audit self.old) (Some line.now)) }
        ensures unchanged { OnErr result (plain_audit self.new ≡ plain_audit self.old) }
    {
        if self.behind.is_empty() {
            self.read_front(line)
        } else {
            self.keep_line(line)
        }
    }

    /// Reads one more line that isn't blank, without its line feed.
    ///
    /// # Errors
    ///
    /// AllocError where there is no memory; then what was read stays as it was.
    pub fn read_line(&mut self, line: &[u8]) -> Result<(), AllocError>
        ensures read { OnOk result (plain_audit self.new ≡ after_line (plain_audit self.old) (Some line.now)) }
        ensures unchanged { OnErr result (plain_audit self.new ≡ plain_audit self.old) }
    {
        if self.is_decided() {
            return Ok(());
        }
        self.read_next(line)
    }

    /// Reads one more line, which has more bytes than a line may have: it is no entry, whatever they are.
    ///
    /// # Errors
    ///
    /// AllocError where there is no memory; then what was read stays as it was.
    pub fn read_too_long(&mut self) -> Result<(), AllocError>
        ensures read { OnOk result (plain_audit self.new ≡ after_line (plain_audit self.old) None) }
        ensures unchanged { OnErr result (plain_audit self.new ≡ plain_audit self.old) }
    {
        if self.is_decided() {
            return Ok(());
        }
        self.keep(None)
    }

    // The entries that are judged.
    #[tactic(auto, using(crate::proofs::Audited::all_taken))]
    fn front(&self) -> &[Entry]
        ensures { result.now ≡ take MOST_JUDGED self.now.entries.items }
    {
        match self.entries.get(..MOST_JUDGED) {
            Some(front) => front,
            None => &self.entries,
        }
    }

    // The verdict over the lines behind the entries, each of which is right.
    fn tail_verdict(&self) -> Result<Verdict, AllocError>
        requires { length self.now.entries.items ≤ MOST_JUDGED }
        ensures { IfOk result (λ verdict. verdict
            ≡ by_lines (plain_audit self.now).entries (plain_audit self.now).behind) }
    {
        let wanted = closing_lines(self.alloc, &self.entries)?;
        let count = self.entries.len() as u32;
        match first_other(count, &wanted, &self.behind) {
            Some(place) => Ok(Verdict::WrongTail { place }),
            None => Ok(Verdict::Good { entries: count }),
        }
    }

    fn found(&self) -> Result<Verdict, AllocError>
        ensures { IfOk result (λ verdict. verdict ≡ verdict_after (plain_audit self.now)) }
    {
        match judge(self.alloc, self.front()) {
            Ok(Judged::Wrong { place, says }) => Ok(Verdict::WrongAnswer { place, says }),
            Ok(Judged::Good) if self.entries.len() > MOST_JUDGED => Ok(Verdict::TooMany {
                place: MOST_JUDGED as u32,
            }),
            Ok(Judged::Good) => self.tail_verdict(),
            Err(error) => Err(error),
        }
    }

    /// The verdict over all lines that were read.
    ///
    /// # Errors
    ///
    /// AllocError where there is no memory.
    pub fn verdict(&self) -> Result<Verdict, AllocError>
        ensures value { IfOk result (λ verdict. verdict ≡ verdict_after (plain_audit self.now)) }
        ensures exact { (lines : List Line) → plain_audit self.now ≡ read_all lines
            → IfOk result (λ verdict. verdict ≡ verdict_of lines) }
    {
        self.found()
    }
}

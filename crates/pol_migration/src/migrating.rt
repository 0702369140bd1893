//! The job that migrates a journal of version 1.
ghost use Rattle.std.specs.Prelude.{◌≡◌, ◌++◌, OnOk};
ghost use Rattle.pol_events.specs.Events.{plain_event};
ghost use Rattle.pol_migration.specs.Migration.{migrated_event};

use event_json::{LineFault, event_value};
use pol_events::Event;
use pol_io::Sink;
use pol_jobs::{InputLine, LineJob, PutFault, Stop};
use pol_lines::LinesOfVersion1;
use pol_replay::{Answering, answer_line};
use std::alloc::{AllocError, Global};
use std::convert::Infallible;

// Puts what the line of an event becomes behind what a buffer holds.
fn put_event(alloc: Global, line: &[u8], event: &Event, out: &mut Vec<u8>) -> Result<(), AllocError>
    ensures { OnOk result (out.new.items ≡ out.old.items ++ migrated_event line.now (plain_event event.now)) }
{
    match event {
        Event::Freeze { .. } => {
            let text = event_value(alloc, event)?.to_vec(alloc)?;
            out.extend_from_slice(&text)?;
        }
        _ => out.extend_from_slice(line)?,
    }
    out.push(b'\n')?;
    Ok(())
}

/// A migration: each line that is an event by version 1 becomes its line in version 2, and every other line nothing.
#[derive(Drop)]
pub struct Migrating {
    alloc: Global,
}

impl Migrating {
    /// A migration, which knows nothing between two lines.
    pub fn new(alloc: Global) -> Migrating {
        Migrating { alloc }
    }
}

impl Answering<LinesOfVersion1> for Migrating {
    type Halt = AllocError;

    ghost use Rattle.std.specs.Prelude.{◌≡◌, ◌++◌, ⊤};
    ghost use Rattle.std.proofs.Common.{append-nil, sym};
    ghost use Rattle.pol_migration.specs.Job.{migrated_met};

    ghost Answers = { λ before now held holds line. holds ≡ held ++ migrated_met line };

    ghost Halts = { λ _ _ _ _. ⊤ };

    #[inline(always)]
    #[tactic(auto, using(crate::proofs::Meant::event_becomes))]
    fn said(&mut self, line: &[u8], event: Event, out: &mut Vec<u8>) -> Result<(), AllocError> {
        put_event(self.alloc, line, &event, out)
    }

    #[tactic(auto, using(crate::proofs::Meant::fault_becomes))]
    fn fault(
        &mut self,
        _line: InputLine<'_>,
        _fault: LineFault,
        _out: &mut Vec<u8>,
    ) -> Result<(), AllocError> {
        Ok(())
    }

    fn no_memory(&self) -> AllocError {
        AllocError
    }

    ghost answers_blank = { λ migrating held line blank. rw blank (sym (append-nil held)) };
}

impl LineJob for Migrating {
    type Refusal = Infallible;

    type Failure = Infallible;

    const SETTLES_EACH: bool = true;

    const HANDS_ON_EACH: bool = false;

    ghost use Rattle.std.specs.Prelude.{⊤, false, true};
    ghost use Rattle.pol_migration.specs.Job.{migrating_work};

    ghost SETTLES_EACH = { true };

    ghost HANDS_ON_EACH = { false };

    ghost State = { ⊤ };

    ghost state = { λ _. tt };

    ghost work = { migrating_work };

    ghost Did = { λ _ _ _ _ _. ⊤ };

    ghost did_nothing = { λ _. tt };

    ghost HasFailed = { λ _. ⊤ };

    fn reply(
        &mut self,
        line: InputLine<'_>,
        out: &mut Vec<u8>,
    ) -> Result<(), Stop<Infallible, Infallible>> {
        answer_line::<LinesOfVersion1, _>(self.alloc, line, self, out)?;
        Ok(())
    }

    fn settle(&mut self) -> Result<(), Infallible> {
        Ok(())
    }

    fn end(&mut self) -> Result<(), Stop<Infallible, Infallible>> {
        Ok(())
    }

    fn close<K: Sink>(&mut self, _sink: &mut K) -> Result<(), PutFault> {
        Ok(())
    }
}

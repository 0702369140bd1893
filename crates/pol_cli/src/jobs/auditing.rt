//! The audit of a history: what the plant prints is read, and said to be true or not.
ghost use Rattle.std.specs.Prelude.{◌≡◌, IfOk};
ghost use Rattle.pol_record.specs.Verdicts.{verdict_text};
ghost use Rattle.pol_audit.specs.Audits.{plain_audit};
ghost use Rattle.pol_audit.specs.Reading.{nothing_read, verdict_after};

use event_json::is_blank;
use pol_audit::Audit;
use pol_io::Sink;
use pol_jobs::{InputLine, LineJob, PutFault, Stop, close_with};
use pol_record::verdict_line;
use std::alloc::{AllocError, Global};
use std::convert::Infallible;

// The line of the verdict over what was read.
fn line_of(alloc: Global, audit: &Audit) -> Result<Vec<u8>, AllocError>
    ensures { IfOk result (λ line. line.items ≡ verdict_text (verdict_after (plain_audit audit.now))) }
{
    match audit.verdict() {
        Ok(verdict) => verdict_line(alloc, &verdict),
        Err(error) => Err(error),
    }
}

/// An audit: it reads each line of a history, and closes with the line of the verdict.
#[derive(Drop)]
pub struct Auditing {
    alloc: Global,
    audit: Audit,
}

impl Auditing {
    /// An audit that has read nothing yet.
    pub fn new(alloc: Global) -> Auditing
        ensures { plain_audit result.audit ≡ nothing_read }
    {
        Auditing {
            alloc,
            audit: Audit::new(alloc),
        }
    }
}

impl LineJob for Auditing {
    type Refusal = Infallible;

    type Failure = Infallible;

    const SETTLES_EACH: bool = true;

    const HANDS_ON_EACH: bool = false;

    ghost use Rattle.std.specs.Prelude.{⊤, false, true};
    ghost use Rattle.pol_audit.specs.Audits.{plain_audit};
    ghost use Rattle.pol_audit.specs.Reading.{Read};
    ghost use Rattle.pol_cli.specs.Audits.{audit_work};

    ghost SETTLES_EACH = { true };

    ghost HANDS_ON_EACH = { false };

    ghost State = { Read };

    ghost state = { λ auditing. plain_audit auditing.audit };

    ghost work = { audit_work };

    ghost Did = { λ _ _ _ _ _. ⊤ };

    ghost did_nothing = { λ _. tt };

    ghost HasFailed = { λ _. ⊤ };

    #[tactic(auto, using(crate::proofs::Auditing::blank_read, crate::proofs::Auditing::filled_read))]
    fn reply(
        &mut self,
        line: InputLine<'_>,
        _out: &mut Vec<u8>,
    ) -> Result<(), Stop<Infallible, Infallible>> {
        match line {
            InputLine::Text(text) if is_blank(text) => {}
            InputLine::Text(text) => self.audit.read_line(text)?,
            InputLine::TooLong => self.audit.read_too_long()?,
        }
        Ok(())
    }

    fn settle(&mut self) -> Result<(), Infallible> {
        Ok(())
    }

    fn end(&mut self) -> Result<(), Stop<Infallible, Infallible>> {
        Ok(())
    }

    fn close<K: Sink>(&mut self, sink: &mut K) -> Result<(), PutFault> {
        close_with(sink, line_of(self.alloc, &self.audit))
    }
}

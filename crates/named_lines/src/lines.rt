//! The form of the lines in which any event may name who gives it.

use crate::named::{Named, read_named};
use event_json::{LineFault, LineRefusal};
use pol_lines::{GuardedLines, LineForm};
use std::alloc::Global;

/// The lines of a journal in which any event may name who gives it: each says an event, and perhaps who gives it.
pub struct NamedLines;

impl LineForm for NamedLines {
    type Said = Named;

    ghost use Rattle.named_lines.specs.Named.{PlainNamed, named_of, plain_named};

    ghost Plain = { PlainNamed };

    ghost plain = { plain_named };

    ghost event = { λ named. named.event };

    ghost said_of = { named_of };

    // A compact line that is read under a policy says the same; one of another kind that names a person is not read so.
    #[inline(always)]
    #[tactic(auto, using(crate::proofs::Alike::guarded_alike))]
    fn read_quickly(alloc: Global, line: &[u8]) -> Option<Named> {
        let said = GuardedLines::read_quickly(alloc, line)?;
        Some(Named {
            event: said.event,
            by: said.by,
        })
    }

    // A fault under a policy may be none here, as that an event of another kind names a person.
    fn fault_quickly(_alloc: Global, _line: &[u8]) -> Option<LineFault> {
        None
    }

    fn read_slowly(alloc: Global, line: &[u8]) -> Result<Named, LineRefusal> {
        read_named(alloc, line)
    }
}

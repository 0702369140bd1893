//! The forms of a journal's lines.
ghost use Rattle.std.specs.Prelude.{◌≡◌, ℕ, List, Result, Ok, Err, IfOk, IfSome, IsTrue};
ghost use Rattle.pol_events.specs.Events.{PlainEvent};
ghost use Rattle.pol_events.specs.Orderly.{is_orderly};
ghost use Rattle.event_json.specs.Lines.{TellsAs};
ghost use Rattle.event_json.specs.declared.fault.LineFault.{LineFault};

use event_json::{LineFault, LineRefusal};
use std::alloc::Global;

/// A form of a journal's lines: what a line says that isn't too long, and how it is read.
pub trait LineForm {
    /// What a line says.
    type Said: Drop;

    /// What a line says, as contracts see it.
    ghost Plain: { Type 0 };

    /// What contracts see of what was read.
    ghost plain: { Self.Said → Plain };

    /// The event that is said.
    ghost event: { Plain → PlainEvent };

    /// What a line says, or its first fault.
    ghost said_of: { List ℕ → Result Plain LineFault };

    /// What a compact line says; None for some lines that say something, and for each that is at fault.
    fn read_quickly(alloc: Global, line: &[u8]) -> Option<Self::Said>
        ensures says { IfSome result (λ said. said_of line.now ≡ Ok (plain said)) }
        ensures orderly { IfSome result (λ said. IsTrue (is_orderly (event (plain said)))) };

    /// The fault of a compact line; None for some lines at fault, and for each that says something.
    fn fault_quickly(alloc: Global, line: &[u8]) -> Option<LineFault>
        ensures { IfSome result (λ fault. said_of line.now ≡ Err fault) };

    /// What a line says, or its first fault, by the tree of its JSON.
    fn read_slowly(alloc: Global, line: &[u8]) -> Result<Self::Said, LineRefusal>
        ensures tells { TellsAs plain result (said_of line.now) }
        ensures orderly { IfOk result (λ said. IsTrue (is_orderly (event (plain said)))) };
}

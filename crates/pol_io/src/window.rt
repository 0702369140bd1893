//! A window onto the input: the bytes that were taken and not given yet.
ghost use Rattle.std.specs.Prelude.{◌≡◌, ◌+◌, ◌≤◌, ◌<◌, vec_capacity, true, false, IfOk};
ghost use Rattle.pol_io.specs.declared.limits.TheConstants.{LONGEST_INPUT, LONGEST_LINE};

use crate::limits::LONGEST_LINE;
use std::alloc::{AllocError, Global};

// The length that a buffer begins with; `fill` doubles it where the buffer is full.
const FIRST_LENGTH: usize = 65_536;

/// A buffer with memory for a longest line and its line feed, whose length grows as bytes come: memory that no byte
/// needed is never written. The bytes that wait lie from `start` to `end`; `taken` counts all bytes that came from the
/// source, and `ended` says that the end of input was seen and all was given.
#[derive(Drop)]
pub struct Window {
    pub buffer: Vec<u8>,
    pub start: usize,
    pub end: usize,
    pub taken: u64,
    pub ended: bool,
    ghost room: { LONGEST_LINE + 1 ≤ vec_capacity buffer },
    ghost begun: { 0 < buffer.len },
    ghost in_room: { buffer.len ≤ LONGEST_LINE + 1 },
    ghost in_order: { start ≤ end },
    ghost in_range: { end ≤ buffer.len },
    ghost counted: { end ≤ start + taken },
    ghost limited: { taken ≤ LONGEST_INPUT },
    ghost spent: { ended ≡ true → start ≡ end },
}

impl Window {
    /// An empty window, with all its memory.
    pub fn new(alloc: Global) -> Result<Window, AllocError>
        ensures { IfOk result (λ window.
            (window.start ≡ 0) × (window.end ≡ 0) × (window.taken ≡ 0) × (window.ended ≡ false)) }
    {
        let mut buffer = Vec::with_capacity(alloc, LONGEST_LINE + 1)?;
        buffer.resize(FIRST_LENGTH, 0)?;
        Ok(Window {
            buffer,
            start: 0,
            end: 0,
            taken: 0,
            ended: false,
        })
    }

    /// Gives all that waits, and keeps in mind that the end of input was seen.
    pub fn finish(&mut self)
        ensures given { (self.new.start ≡ self.old.end) × (self.new.end ≡ self.old.end) }
        ensures ended { self.new.ended ≡ true }
        ensures same { (self.new.buffer ≡ self.old.buffer) × (self.new.taken ≡ self.old.taken) }
    {
        self.start = self.end;
        self.ended = true;
    }
}

/// What a look into a window found: a line feed behind so many bytes, too many bytes without one, or the end of input.
pub enum Found {
    Feed(usize),
    Long,
    End,
}

/// What was cut from the front: a line in these places of the buffer, a line that is too long, or nothing at the end.
pub enum Cut {
    Text(usize, usize),
    TooLong,
    End,
}

//! The lines that come from a source.
ghost use Rattle.std.specs.Prelude.{◌≡◌, ℕ, IsTrue, true, false, IfOk, IfErr, OnErr, MatchResult};
ghost use Rattle.std.specs.Borrow.{sem};
ghost use Rattle.std.specs.Option.{ForSome};
ghost use Rattle.std.specs.Io.BufRead.{Rests};
ghost use Rattle.pol_io.specs.Causes.{HasCauseOf};
ghost use Rattle.pol_io.specs.Cuts.{FeedAt};
ghost use Rattle.pol_io.specs.Faults.{Stops};
ghost use Rattle.pol_io.specs.LinesState.{ahead, needs_no_source, Reads};
ghost use Rattle.pol_io.specs.Window.{waiting};

use crate::seek::{cut_line, find_feed};
use crate::source::Source;
use crate::window::{Cut, Window};
use std::alloc::{AllocError, Global};
use std::marker::Model;

/// Why a line could not be read.
#[derive(Clone, Copy, Debug, PartialEq, Eq)]
pub enum IoFault {
    /// The source failed.
    Read,
    /// 268,435,456 bytes were taken and another one came.
    TooMuch,
}

/// A line of the input, without its line feed.
#[derive(Clone, Copy, Debug, PartialEq, Eq)]
pub enum Line<'a> {
    /// At most 1,048,576 bytes.
    Text(&'a [u8]),
    /// More bytes; they were passed over.
    TooLong,
    /// The input is at its end.
    End,
}

/// Cuts what comes from a source into lines, in one buffer. `feed` is the place of the first line feed that waits,
/// where it was looked for already.
#[derive(Drop)]
pub struct Lines {
    window: Window,
    feed: Option<usize>,
    failed: bool,
    ghost first: { ForSome feed (λ place. FeedAt (waiting window) place) },
}

impl Model for Lines {
    ghost use Rattle.std.specs.Prelude.{not};
    ghost use Rattle.pol_io.specs.LinesState.{LinesState};

    ghost Value = { LinesState };

    ghost use Rattle.pol_io.specs.Window.{waiting};

    ghost view = { λ lines. record {
      waiting = waiting lines.window;
      taken = lines.window.taken;
      ended = lines.window.ended;
      sound = not lines.failed;
    } };
}

impl Lines {
    ghost use Rattle.std.specs.Prelude.{[]};
    ghost use Rattle.pol_io.specs.contracts.lines.Lines.{the_row};

    /// Takes room for a longest line and its line feed; no later call takes memory.
    pub fn new(alloc: Global) -> Result<Lines, AllocError>
        ensures { IfOk result (λ lines.
            (lines.waiting ≡ []) × (lines.taken ≡ 0) × (lines.ended ≡ false) × IsTrue lines.sound) }
    {
        Ok(Lines {
            window: Window::new(alloc)?,
            feed: None,
            failed: false,
        })
    }

    /// Whether no call answered an `Err` so far.
    pub fn sound(&self) -> bool
        ensures { result ≡ self.now.sound }
    {
        !self.failed
    }

    /// Whether the next line is here already, or the end of input was seen: then `next_line` asks no source.
    #[tactic(auto, using(crate::proofs::Feeds::feed_found))]
    pub fn has_next(&mut self) -> bool
        ensures next { result ≡ needs_no_source self.old }
        ensures same { self.new ≡ self.old }
    {
        let window = &self.window;
        self.feed = find_feed(&window.buffer[window.start..window.end]);
        window.ended || self.feed.is_some()
    }

    /// The next line of the bytes that wait here, followed by those that the source has left. It is lent from the
    /// buffer. A line ends at a line feed or at the end of input; a last line without a line feed counts where it has
    /// a byte. Once the end was seen, no source is asked again.
    ///
    /// `Read` comes exactly where the source's count of faults rose in this call, and `TooMuch` exactly where
    /// 268,435,456 bytes were taken and another one came. After an `Err` the lines can't be read on.
    pub fn next_line<S: Source>(&mut self, source: &mut S) -> Result<Line<'_>, IoFault>
        requires { IsTrue self.old.sound }
        // of the lines as they are once the answered line is let go
        ensures* line { sem 𝓛 (Rests the_row self.entry (λ new. MatchResult result
            (λ line. Reads (S.left source.old) (S.left source.new) self.old new line)
            (λ _. new.sound ≡ false))) }
        ensures fault { IfErr result (λ fault. Stops self.old.taken (ahead self.old (S.left source.old))
            (S.left source.old) (S.left source.new) fault) }
        ensures open_end { OnErr result (self.old.ended ≡ false) }
        ensures unasked { IsTrue (needs_no_source self.old) → source.new ≡ source.old }
        ensures cause { HasCauseOf IoFault.Read (S.faults source.old) (S.faults source.new) result }
    {
        match cut_line(&mut self.window, self.feed.take(), source) {
            Ok(Cut::Text(from, to)) => Ok(Line::Text(&self.window.buffer[from..to])),
            Ok(Cut::TooLong) => Ok(Line::TooLong),
            Ok(Cut::End) => Ok(Line::End),
            Err(fault) => {
                self.failed = true;
                Err(fault)
            }
        }
    }
}

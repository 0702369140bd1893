//! Looks for the end of a line.
ghost use Rattle.std.specs.Prelude.{◌≡◌, ℕ, ◌≤◌, ◌<◌, ◌||◌, not, length, IsTrue, true, false, IfErr, IfSome, MatchOption, Ok, IfOk, OnOk, OnErr};
ghost use Rattle.std.specs.Io.KnownBytes.{Keeps, IsAtEnd};
ghost use Rattle.pol_io.specs.Causes.{HasCauseOf};
ghost use Rattle.pol_io.specs.Cuts.{FeedAt, CutsLong};
ghost use Rattle.pol_io.specs.Faults.{Stops};
ghost use Rattle.pol_io.specs.Known.{Between, Counts};
ghost use Rattle.pol_io.specs.Pieces.{has_no_feed};
ghost use Rattle.pol_io.specs.Window.{waiting, ahead, given, IsEnd, IsFound, IsCut, CutFits, CutGives};
ghost use Rattle.pol_io.specs.declared.limits.TheConstants.{LONGEST_LINE};

use crate::fill::fill;
use crate::limits::LONGEST_LINE;
use crate::lines::IoFault;
use crate::source::Source;
use crate::window::{Cut, Found, Window};
use memchr::memchr;

/// The place of the first line feed.
pub fn find_feed(bytes: &[u8]) -> Option<usize>
    ensures { MatchOption result (IsTrue (has_no_feed bytes.now)) (λ i. FeedAt bytes.now i) }
{
    memchr(b'\n', bytes)
}

/// Takes bytes until a line feed waits, too many bytes wait, or the input is at its end. The place of the first line
/// feed may be known.
pub fn seek<S: Source>(
    window: &mut Window,
    known: Option<usize>,
    source: &mut S,
) -> Result<Found, IoFault>
    requires { IfSome known (λ place. FeedAt (waiting window.old) place) }
    ensures found { IfOk result (λ found. IsFound (waiting window.new) found) }
    ensures end { result ≡ Ok Found.End
        → IsEnd window.old window.new (S.left source.old) (S.left source.new) }
    ensures bytes { OnOk result
        (Keeps (ahead window.old (S.left source.old)) (ahead window.new (S.left source.new))) }
    ensures given { given window.new ≡ given window.old }
    ensures ended { window.new.ended ≡ window.old.ended }
    ensures counted { OnOk result
        (Between (Counts window.old.taken window.new.taken) (S.left source.old) (S.left source.new)) }
    ensures open_end { OnErr result (window.old.ended ≡ false) }
    ensures stops { IfErr result (λ fault. Stops window.old.taken
        (ahead window.old (S.left source.old)) (S.left source.old) (S.left source.new) fault) }
    ensures unasked { IsTrue (window.old.ended || not (has_no_feed (waiting window.old)))
        → (source.new ≡ source.old) × (waiting window.new ≡ waiting window.old) }
    ensures cause { HasCauseOf IoFault.Read (S.faults source.old) (S.faults source.new) result }
{
    if let Some(place) = known {
        return Ok(Found::Feed(place));
    }
    let mut scanned = 0;
    'scan: loop {
        let from = window.start + scanned;
        if let Some(i) = find_feed(&window.buffer[from..window.end]) {
            return Ok(Found::Feed(scanned + i));
        }
        scanned = window.end - window.start;
        if scanned > LONGEST_LINE {
            return Ok(Found::Long);
        }
        if !fill(window, source)? {
            return Ok(Found::End);
        }
    }
}

// Passes over what waits and over the rest of its line.
fn skip<S: Source>(window: &mut Window, source: &mut S) -> Result<(), IoFault>
    requires no_feed { IsTrue (has_no_feed (waiting window.old)) }
    requires long { LONGEST_LINE < length (waiting window.old) }
    ensures cut { OnOk result (Between (CutsLong LONGEST_LINE window.new.ended)
        (ahead window.old (S.left source.old)) (ahead window.new (S.left source.new))) }
    ensures given { OnOk result (given window.old < given window.new) }
    ensures counted { OnOk result
        (Between (Counts window.old.taken window.new.taken) (S.left source.old) (S.left source.new)) }
    ensures at_end { OnOk result (window.new.ended ≡ true → IsAtEnd (S.left source.new)) }
    ensures open_end { OnErr result (window.old.ended ≡ false) }
    ensures stops { IfErr result (λ fault. Stops window.old.taken
        (ahead window.old (S.left source.old)) (S.left source.old) (S.left source.new) fault) }
    ensures cause { HasCauseOf IoFault.Read (S.faults source.old) (S.faults source.new) result }
{
    'pass: loop {
        window.start = window.end;
        if !fill(window, source)? {
            window.finish();
            return Ok(());
        }
        if let Some(i) = find_feed(&window.buffer[window.start..window.end]) {
            window.start += i + 1;
            return Ok(());
        }
    }
}

/// Cuts a line from the front of the text. The place of the first line feed may be known.
pub fn cut_line<S: Source>(
    window: &mut Window,
    known: Option<usize>,
    source: &mut S,
) -> Result<Cut, IoFault>
    requires { IfSome known (λ place. FeedAt (waiting window.old) place) }
    ensures cut { IfOk result (λ cut. Between (IsCut window.new cut)
        (ahead window.old (S.left source.old)) (ahead window.new (S.left source.new))) }
    ensures fits { IfOk result (λ cut. CutFits window.new cut) }
    ensures given { IfOk result (λ cut. CutGives cut (given window.old) (given window.new)) }
    ensures counted { OnOk result
        (Between (Counts window.old.taken window.new.taken) (S.left source.old) (S.left source.new)) }
    ensures at_end { OnOk result (window.new.ended ≡ true
        → (window.old.ended ≡ true → IsAtEnd (S.left source.old)) → IsAtEnd (S.left source.new)) }
    ensures open_end { OnErr result (window.old.ended ≡ false) }
    ensures stops { IfErr result (λ fault. Stops window.old.taken
        (ahead window.old (S.left source.old)) (S.left source.old) (S.left source.new) fault) }
    ensures unasked { IsTrue (window.old.ended || not (has_no_feed (waiting window.old)))
        → source.new ≡ source.old }
    ensures cause { HasCauseOf IoFault.Read (S.faults source.old) (S.faults source.new) result }
{
    let found = seek(window, known, source)?;
    let start = window.start;
    match found {
        Found::Feed(size) => {
            window.start += size + 1;
            Ok(Cut::Text(start, start + size))
        }
        Found::Long => {
            skip(window, source)?;
            Ok(Cut::TooLong)
        }
        Found::End => {
            window.finish();
            if start == window.end {
                return Ok(Cut::End);
            }
            Ok(Cut::Text(start, window.end))
        }
    }
}

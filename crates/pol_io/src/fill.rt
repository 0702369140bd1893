//! Takes more bytes from a source.
ghost use Rattle.std.specs.Prelude.{◌≡◌, ℕ, ◌+◌, ◌-◌, ◌≤◌, ◌<◌, length, take, slice_range, true, false, Ok, Some, IfOk, OnOk, OnErr, IsTrue, IfErr};
ghost use Rattle.std.specs.Io.KnownBytes.{Keeps, IsAtEnd, Consumes};
ghost use Rattle.pol_io.specs.Causes.{HasCause, HasCauseOf};
ghost use Rattle.pol_io.specs.Known.{Between, Counts};
ghost use Rattle.pol_io.specs.Faults.{Stops};
ghost use Rattle.pol_io.specs.Window.{waiting, ahead, given, Fills, IsEnd};
ghost use Rattle.pol_io.specs.declared.limits.TheConstants.{LONGEST_INPUT, LONGEST_LINE};

use crate::limits::{LONGEST_INPUT, LONGEST_LINE};
use crate::lines::IoFault;
use crate::source::{Failed, Source};
use crate::window::Window;

// Doubles the length of a full buffer, in the memory that it has, or moves what waits to the front where it is longest.
fn make_room(window: &mut Window)
    requires full { window.old.end ≡ window.old.buffer.len }
    requires short { window.old.end ≤ window.old.start + LONGEST_LINE }
    ensures waiting { waiting window.new ≡ waiting window.old }
    ensures taken { window.new.taken ≡ window.old.taken }
    ensures ended { window.new.ended ≡ window.old.ended }
    ensures room { window.new.end < window.new.buffer.len }
    ensures given { given window.new ≡ given window.old }
{
    let length = window.buffer.len();
    if length <= LONGEST_LINE {
        let twice = 2 * length;
        let longer = if twice < LONGEST_LINE {
            twice
        } else {
            LONGEST_LINE + 1
        };
        if window.buffer.resize(longer, 0).is_err() {
            unreachable!();
        }
        return;
    }
    window.buffer.copy_within(window.start..window.end, 0);
    window.end -= window.start;
    window.start = 0;
}

// Asks for one byte past the limit, by itself.
fn ask_past<S: Source>(source: &mut S) -> Result<(), IoFault>
    ensures end { OnOk result
        (Keeps (S.left source.old) (S.left source.new) × IsAtEnd (S.left source.new)) }
    ensures stops { IfErr result (λ fault.
        Stops LONGEST_INPUT (S.left source.old) (S.left source.old) (S.left source.new) fault) }
    ensures cause { HasCauseOf IoFault.Read (S.faults source.old) (S.faults source.new) result }
{
    let mut one = [0u8];
    match source.read(&mut one) {
        Ok(0) => Ok(()),
        Ok(_) => Err(IoFault::TooMuch),
        Err(Failed) => Err(IoFault::Read),
    }
}

// Reads into a part of the buffer.
fn read_at<S: Source>(
    source: &mut S,
    buffer: &mut [u8],
    at: usize,
    size: usize,
) -> Result<usize, Failed>
    requires { at + size ≤ length buffer.old }
    ensures front { take at buffer.new ≡ take at buffer.old }
    ensures bound { IfOk result (λ n. n ≤ size) }
    ensures bytes { IfOk result (λ n.
        Consumes (S.left source.old) (S.left source.new) (slice_range buffer.new at (at + n))) }
    ensures end { IfOk result (λ n. n ≡ 0 → 0 < size → IsAtEnd (S.left source.new)) }
    ensures unread { OnErr result (Keeps (S.left source.old) (S.left source.new)) }
    ensures cause { HasCause (S.faults source.old) (S.faults source.new) result }
{
    source.read(&mut buffer[at..at + size])
}

// Takes bytes behind those that wait, as many as come and have room. `false` is the end of input.
fn take_more<S: Source>(window: &mut Window, source: &mut S) -> Result<bool, IoFault>
    requires room { window.old.end < window.old.buffer.len }
    requires limit { window.old.taken < LONGEST_INPUT }
    requires open_end { window.old.ended ≡ false }
    ensures fills { OnOk result (Fills window.old window.new) }
    ensures counted { OnOk result
        (Between (Counts window.old.taken window.new.taken) (S.left source.old) (S.left source.new)) }
    ensures given { given window.new ≡ given window.old }
    ensures ended { window.new.ended ≡ false }
    ensures more { IfOk result (λ more. IsTrue more → window.old.taken < window.new.taken) }
    ensures bytes { OnOk result
        (Keeps (ahead window.old (S.left source.old)) (ahead window.new (S.left source.new))) }
    ensures end { result ≡ Ok false
        → (waiting window.new ≡ waiting window.old) × IsAtEnd (S.left source.new) }
    ensures stops { IfErr result (λ fault. Stops window.old.taken
        (S.left source.old) (S.left source.old) (S.left source.new) fault) }
    ensures cause { HasCauseOf IoFault.Read (S.faults source.old) (S.faults source.new) result }
{
    let room = window.buffer.len() - window.end;
    let size = (room as u64).min(LONGEST_INPUT - window.taken) as usize;
    match read_at(source, &mut window.buffer, window.end, size) {
        Ok(count) => {
            window.end += count;
            window.taken += count as u64;
            Ok(count > 0)
        }
        Err(Failed) => Err(IoFault::Read),
    }
}

/// Takes more bytes. `false` is the end of input; where that was seen before, the source isn't asked again.
pub fn fill<S: Source>(window: &mut Window, source: &mut S) -> Result<bool, IoFault>
    requires { window.old.end ≤ window.old.start + LONGEST_LINE }
    ensures fills { OnOk result (Fills window.old window.new) }
    ensures counted { OnOk result
        (Between (Counts window.old.taken window.new.taken) (S.left source.old) (S.left source.new)) }
    ensures given { given window.new ≡ given window.old }
    ensures ended { window.new.ended ≡ window.old.ended }
    ensures more { IfOk result (λ more. IsTrue more
        → (window.old.taken < window.new.taken) × (window.old.ended ≡ false)) }
    ensures bytes { OnOk result
        (Keeps (ahead window.old (S.left source.old)) (ahead window.new (S.left source.new))) }
    ensures same { result ≡ Ok false → waiting window.new ≡ waiting window.old }
    ensures end { result ≡ Ok false
        → IsEnd window.old window.new (S.left source.old) (S.left source.new) }
    ensures open_end { OnErr result (window.old.ended ≡ false) }
    ensures stops { IfErr result (λ fault. Stops window.old.taken
        (S.left source.old) (S.left source.old) (S.left source.new) fault) }
    ensures unasked { window.old.ended ≡ true → source.new ≡ source.old }
    ensures cause { HasCauseOf IoFault.Read (S.faults source.old) (S.faults source.new) result }
{
    if window.ended {
        return Ok(false);
    }
    if window.taken == LONGEST_INPUT {
        ask_past(source)?;
        return Ok(false);
    }
    if window.end == window.buffer.len() {
        make_room(window);
    }
    take_more(window, source)
}

//! Readers and writers of std as sources and sinks: the edge to the outside.
ghost use Rattle.std.specs.Prelude.{◌≡◌, ◌<◌, length, IfOk, IfErr};
ghost use Rattle.std.specs.Io.{ReadsAtMost, WritesAtMost};
ghost use Rattle.std.specs.Io.KnownBytes.{Keeps, ReadConsumes, WriteAppends};
ghost use Rattle.pol_io.specs.Causes.{HasCauseOf};
ghost use Rattle.pol_io.specs.Edge.{Edge};

use crate::{Failed, Sink, SinkFault, Source};
use std::io::{self, ErrorKind, Read, Write};
use std::marker::Model;

// One read, done again where it is interrupted.
fn read_again<R: Read>(reader: &mut R, into: &mut [u8]) -> io::Result<usize>
    ensures bound { ReadsAtMost result into.new }
    ensures bytes { ReadConsumes (R.remaining reader.old) (R.remaining reader.new) result into.new }
{
    for _ in 0..u64::MAX {
        match reader.read(into) {
            Ok(count) => return Ok(count),
            Err(error) => {
                if error.kind() != ErrorKind::Interrupted {
                    return Err(error);
                }
            }
        }
    }
    Err(io::Error::from(ErrorKind::Interrupted))
}

// One write, done again where it is interrupted.
fn write_again<W: Write>(writer: &mut W, piece: &[u8]) -> io::Result<usize>
    ensures bound { WritesAtMost result piece.now }
    ensures bytes { WriteAppends (W.contents writer.old) (W.contents writer.new) result piece.now }
{
    for _ in 0..u64::MAX {
        match writer.write(piece) {
            Ok(count) => return Ok(count),
            Err(error) => {
                if error.kind() != ErrorKind::Interrupted {
                    return Err(error);
                }
            }
        }
    }
    Err(io::Error::from(ErrorKind::Interrupted))
}

// One flush, done again where it is interrupted.
fn flush_again<W: Write>(writer: &mut W) -> io::Result<()>
    ensures { Keeps (W.contents writer.old) (W.contents writer.new) }
{
    for _ in 0..u64::MAX {
        match writer.flush() {
            Ok(()) => return Ok(()),
            Err(error) => {
                if error.kind() != ErrorKind::Interrupted {
                    return Err(error);
                }
            }
        }
    }
    Err(io::Error::from(ErrorKind::Interrupted))
}

/// A reader as a source. Each error of the reader is a fault, except an interruption: then the reader is read again.
/// What is known of its bytes is what is known of the reader's: nothing for a file or a terminal.
#[derive(Drop)]
pub struct ReaderSource<R: Read> {
    inner: R,
    faults: u64,
}

impl<R: Read> Model for ReaderSource<R> {
    ghost Value = { Edge };

    ghost view = { λ source. record { bytes = R.remaining source.inner; faults = source.faults } };
}

impl<R: Read> ReaderSource<R> {
    /// The reader as it is, with no fault so far.
    pub fn new(inner: R) -> ReaderSource<R>
        ensures { result ≡ record { bytes = R.remaining inner; faults = 0 } }
    {
        ReaderSource { inner, faults: 0 }
    }
}

impl<R: Read> Source for ReaderSource<R> {
    ghost left = { λ source. source.bytes };

    ghost faults = { λ source. source.faults };

    fn read(&mut self, into: &mut [u8]) -> Result<usize, Failed> {
        match read_again(&mut self.inner, into) {
            Ok(count) => Ok(count),
            Err(_) => {
                self.faults = self.faults.saturating_add(1);
                Err(Failed)
            }
        }
    }
}

/// A writer as a sink. Each error of the writer is a fault, except an interruption: then the piece is written again. A
/// piece of which it takes nothing is a fault too. A flush is the writer's. What is known of its bytes is what is known
/// of the writer's: nothing for a file or a terminal.
#[derive(Drop)]
pub struct WriterSink<W: Write> {
    inner: W,
    faults: u64,
}

impl<W: Write> Model for WriterSink<W> {
    ghost Value = { Edge };

    ghost view = { λ sink. record { bytes = W.contents sink.inner; faults = sink.faults } };
}

impl<W: Write> WriterSink<W> {
    /// The writer as it is, with no fault so far.
    pub fn new(inner: W) -> WriterSink<W>
        ensures { result ≡ record { bytes = W.contents inner; faults = 0 } }
    {
        WriterSink { inner, faults: 0 }
    }
}

impl<W: Write> Sink for WriterSink<W> {
    ghost held = { λ sink. sink.bytes };

    ghost faults = { λ sink. sink.faults };

    // It never answers `Memory`.
    fn write(&mut self, piece: &[u8]) -> Result<usize, SinkFault>
        ensures bound { WritesAtMost result piece.now }
        ensures progress { 0 < length piece.now → IfOk result (λ n. 0 < n) }
        ensures bytes { WriteAppends self.old.bytes self.new.bytes result piece.now }
        ensures cause { HasCauseOf SinkFault.Failed self.old.faults self.new.faults result }
        ensures failed { IfErr result (λ fault. fault ≡ SinkFault.Failed) }
    {
        match write_again(&mut self.inner, piece) {
            Ok(count) if count > 0 || piece.is_empty() => Ok(count),
            _ => {
                self.faults = self.faults.saturating_add(1);
                Err(SinkFault::Failed)
            }
        }
    }

    // It never answers `Memory`.
    fn flush(&mut self) -> Result<(), SinkFault>
        ensures bytes { Keeps self.old.bytes self.new.bytes }
        ensures cause { HasCauseOf SinkFault.Failed self.old.faults self.new.faults result }
        ensures failed { IfErr result (λ fault. fault ≡ SinkFault.Failed) }
    {
        match flush_again(&mut self.inner) {
            Ok(()) => Ok(()),
            Err(_) => {
                self.faults = self.faults.saturating_add(1);
                Err(SinkFault::Failed)
            }
        }
    }
}

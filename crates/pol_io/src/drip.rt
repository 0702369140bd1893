//! A source and a sink in memory that never fail, and give or take few bytes at a time.
ghost use Rattle.std.specs.Prelude.{◌≡◌, ◌-◌, ◌<◌, ◌≤◌, List, ℕ, [], drop, length, min, Some, IfOk, IsOk};
ghost use Rattle.std.specs.Io.{ReadsAtMost, WritesAtMost};
ghost use Rattle.std.specs.Io.KnownBytes.{ReadConsumes, WriteAppends};
ghost use Rattle.pol_io.specs.Causes.{HasCause, HasCauseOf};
ghost use Rattle.pol_io.specs.Dripping.{Dripping};

use crate::sure::give;
use crate::{Failed, Sink, SinkFault, Source};
use std::alloc::Global;
use std::marker::Model;

/// A source of these bytes that never fails, and gives at most so many of them at a time.
#[derive(Drop)]
pub struct DripSource {
    bytes: Vec<u8>,
    at: usize,
    at_most: u32,
}

impl Model for DripSource {
    ghost Value = { Dripping };

    ghost view = { λ source. record { bytes = drop source.at source.bytes.items; at_most = source.at_most } };

    ghost invariant = { λ source. (source.at ≤ source.bytes.len) × (0 < source.at_most) };
}

impl DripSource {
    /// A source that has all these bytes left. At least one is given at a time.
    pub fn new(bytes: Vec<u8>, at_most: u32) -> DripSource
        requires { 0 < at_most }
        ensures { result ≡ record { bytes = bytes.items; at_most = at_most } }
    {
        DripSource {
            bytes,
            at: 0,
            at_most,
        }
    }
}

impl Source for DripSource {
    ghost left = { λ source. Some source.bytes };

    ghost faults = { λ _. 0 };

    // Gives as many bytes as the slice holds and as are left, but at most so many.
    fn read(&mut self, into: &mut [u8]) -> Result<usize, Failed>
        ensures bound { ReadsAtMost result into.new }
        ensures bytes { ReadConsumes (Some self.old.bytes) (Some self.new.bytes) result into.new }
        ensures cause { HasCause 0 0 result }
        ensures sure { IsOk result }
        ensures at_most { self.new.at_most ≡ self.old.at_most }
        ensures many { IfOk result (λ n.
            n ≡ min (min (length into.old) self.old.at_most) (length self.old.bytes)) }
    {
        let room = into.len().min(self.at_most as usize);
        let count = give(&self.bytes, self.at, &mut into[..room]);
        self.at += count;
        Ok(count)
    }
}

/// A sink that never fails, except that it may find no memory, and takes at most so many bytes at a time.
#[derive(Drop)]
pub struct DripSink {
    bytes: Vec<u8>,
    at_most: u32,
}

impl Model for DripSink {
    ghost Value = { Dripping };

    ghost view = { λ sink. record { bytes = sink.bytes.items; at_most = sink.at_most } };

    ghost invariant = { λ sink. 0 < sink.at_most };
}

impl DripSink {
    /// A sink that holds nothing. At least one byte is taken at a time.
    pub fn new(alloc: Global, at_most: u32) -> DripSink
        requires { 0 < at_most }
        ensures { result ≡ record { bytes = []; at_most = at_most } }
    {
        DripSink {
            bytes: Vec::new(alloc),
            at_most,
        }
    }

    /// The bytes that the sink holds.
    pub fn bytes(&self) -> &[u8]
        ensures { result.now ≡ self.now.bytes }
    {
        &self.bytes
    }
}

impl Sink for DripSink {
    ghost held = { λ sink. Some sink.bytes };

    ghost faults = { λ _. 0 };

    // Takes the front of the piece, at most so many bytes, or finds no memory.
    fn write(&mut self, piece: &[u8]) -> Result<usize, SinkFault>
        ensures bound { WritesAtMost result piece.now }
        ensures progress { 0 < length piece.now → IfOk result (λ n. 0 < n) }
        ensures bytes { WriteAppends (Some self.old.bytes) (Some self.new.bytes) result piece.now }
        ensures cause { HasCauseOf SinkFault.Failed 0 0 result }
        ensures at_most { self.new.at_most ≡ self.old.at_most }
        ensures many { IfOk result (λ n. n ≡ min (length piece.now) self.old.at_most) }
    {
        let count = piece.len().min(self.at_most as usize);
        match self.bytes.extend_from_slice(&piece[..count]) {
            Ok(()) => Ok(count),
            Err(_) => Err(SinkFault::Memory),
        }
    }
}

//! A source and a sink in memory that fail at chosen calls.
ghost use Rattle.std.specs.Prelude.{◌≡◌, ◌-◌, ◌<◌, ◌≤◌, List, ℕ, [], drop, length, min, Some, Err, IfOk, IfErr, is_err, IsTrue, not, if◌then◌else◌};
ghost use Rattle.std.specs.Io.{ReadsAtMost, WritesAtMost};
ghost use Rattle.std.specs.Io.KnownBytes.{ReadConsumes, WriteAppends};
ghost use Rattle.pol_io.specs.Causes.{Rose, HasCause, HasCauseOf};
ghost use Rattle.pol_io.specs.Scripted.{Scripted, IsNextCall, counted, is_listed, fails_next};

use crate::sure::give;
use crate::{Failed, Sink, SinkFault, Source};
use std::alloc::Global;
use std::marker::Model;

fn has_number(numbers: &[u32], call: u64) -> bool
    ensures { result ≡ is_listed numbers.now call }
{
    numbers.iter().any(|number| u64::from(*number) == call)
}

// The numbers of the calls that fail, and counts of calls and faults.
#[derive(Drop)]
struct Script {
    failing: Vec<u32>,
    calls: u64,
    faults: u64,
}

impl Script {
    fn new(failing: Vec<u32>) -> Script
        ensures { (result.failing ≡ failing) × (result.calls ≡ 0) × (result.faults ≡ 0) }
    {
        Script {
            failing,
            calls: 0,
            faults: 0,
        }
    }

    // Counts one call more, and says whether it fails.
    fn fails(&mut self) -> bool
        ensures fails { result ≡ is_listed self.old.failing.items (counted self.old.calls) }
        ensures failing { self.new.failing ≡ self.old.failing }
        ensures calls { self.new.calls ≡ counted self.old.calls }
        ensures faults { self.new.faults
            ≡ (if result then counted self.old.faults else self.old.faults) }
        ensures later { self.old.faults ≤ self.new.faults }
        ensures cause { IsTrue result → Rose self.old.faults self.new.faults }
    {
        self.calls = self.calls.saturating_add(1);
        if !has_number(&self.failing, self.calls) {
            return false;
        }
        self.faults = self.faults.saturating_add(1);
        true
    }
}

/// A source of these bytes that fails at the calls whose numbers are listed, and then takes nothing.
#[derive(Drop)]
pub struct MemorySource {
    bytes: Vec<u8>,
    at: usize,
    script: Script,
}

impl Model for MemorySource {
    ghost Value = { Scripted };

    ghost view = { λ source. record {
      bytes = drop source.at source.bytes.items;
      failing = source.script.failing.items;
      calls = source.script.calls;
      faults = source.script.faults;
    } };

    ghost invariant = { λ source. source.at ≤ source.bytes.len };
}

impl MemorySource {
    /// A source that has all these bytes left. The first call has the number 1.
    pub fn new(bytes: Vec<u8>, failing: Vec<u32>) -> MemorySource
        ensures { result ≡ record
            { bytes = bytes.items; failing = failing.items; calls = 0; faults = 0 } }
    {
        MemorySource {
            bytes,
            at: 0,
            script: Script::new(failing),
        }
    }
}

impl Source for MemorySource {
    ghost left = { λ source. Some source.bytes };

    ghost faults = { λ source. source.faults };

    // Fails exactly at the listed calls; at the others it gives as many bytes as the slice holds and as are left.
    fn read(&mut self, into: &mut [u8]) -> Result<usize, Failed>
        ensures bound { ReadsAtMost result into.new }
        ensures bytes { ReadConsumes (Some self.old.bytes) (Some self.new.bytes) result into.new }
        ensures cause { HasCause self.old.faults self.new.faults result }
        ensures fails { is_err result ≡ fails_next self.old }
        ensures counts { IsNextCall (fails_next self.old) self.old self.new }
        ensures many { IfOk result (λ n. n ≡ min (length into.old) (length self.old.bytes)) }
    {
        if self.script.fails() {
            return Err(Failed);
        }
        let count = give(&self.bytes, self.at, into);
        self.at += count;
        Ok(count)
    }
}

/// A sink that fails at the calls whose numbers are listed, and then takes nothing.
#[derive(Drop)]
pub struct MemorySink {
    bytes: Vec<u8>,
    script: Script,
}

impl Model for MemorySink {
    ghost Value = { Scripted };

    ghost view = { λ sink. record {
      bytes = sink.bytes.items;
      failing = sink.script.failing.items;
      calls = sink.script.calls;
      faults = sink.script.faults;
    } };
}

impl MemorySink {
    /// A sink that holds nothing. The first call has the number 1.
    pub fn new(alloc: Global, failing: Vec<u32>) -> MemorySink
        ensures { result ≡ record
            { bytes = []; failing = failing.items; calls = 0; faults = 0 } }
    {
        MemorySink {
            bytes: Vec::new(alloc),
            script: Script::new(failing),
        }
    }

    /// The bytes that the sink holds.
    pub fn bytes(&self) -> &[u8]
        ensures { result.now ≡ self.now.bytes }
    {
        &self.bytes
    }
}

impl Sink for MemorySink {
    ghost held = { λ sink. Some sink.bytes };

    ghost faults = { λ sink. sink.faults };

    // Fails exactly at the listed calls; at the others it takes the whole piece or finds no memory.
    fn write(&mut self, piece: &[u8]) -> Result<usize, SinkFault>
        ensures bound { WritesAtMost result piece.now }
        ensures progress { 0 < length piece.now → IfOk result (λ n. 0 < n) }
        ensures bytes { WriteAppends (Some self.old.bytes) (Some self.new.bytes) result piece.now }
        ensures cause { HasCauseOf SinkFault.Failed self.old.faults self.new.faults result }
        ensures fails { IsTrue (fails_next self.old) → result ≡ Err SinkFault.Failed }
        ensures else_memory { IsTrue (not (fails_next self.old))
            → IfErr result (λ fault. fault ≡ SinkFault.Memory) }
        ensures counts { IsNextCall (fails_next self.old) self.old self.new }
        ensures whole { IfOk result (λ n. n ≡ length piece.now) }
    {
        if self.script.fails() {
            return Err(SinkFault::Failed);
        }
        match self.bytes.extend_from_slice(piece) {
            Ok(()) => Ok(piece.len()),
            Err(_) => Err(SinkFault::Memory),
        }
    }
}

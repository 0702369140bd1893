//! A disk in memory that can be made to stop. It keeps a record of its calls, by which its images are known.
ghost use Rattle.std.specs.Prelude.{◌≡◌, ◌+◌, ◌<◌, ◌≤◌, ℕ, List, [], ◌∷◌, ◌++◌, Some, IfOk, OnOk, OnErr, IsOk, length, take, drop, reverse, map, set, if◌then◌else◌};
ghost use Rattle.pol_io.specs.Causes.{HasCause, Rose};
ghost use Rattle.pol_disk.specs.Remains.{is_within};
ghost use Rattle.pol_disk.specs.Disks.{Follows, Holds, Keeps, Reads, Torn};
ghost use Rattle.pol_disk.specs.Records.{DiskRecord, IsFilled, IsLeft, LeftSince, Writes, left_now, left_only_now, ranges_of, synced, wrote};
ghost use Rattle.pol_disk.specs.Calls.{IsPopped, IsWritten, deed_of, deeds_of};
ghost use Rattle.pol_disk.specs.declared.memory.Call.TheVariants.{Wrote};

use crate::disk::Disk;
use pol_io::Failed;
use std::alloc::{AllocError, Global};
use std::marker::Model;

/// A call of a disk in memory that changed what a crash may leave.
#[derive(Drop)]
pub enum Call {
    /// All that was written is kept.
    Synced,
    /// A piece was written over the bytes that were there before.
    Wrote {
        /// The place of its first byte.
        at: u64,
        /// How many bytes it has.
        size: u64,
        /// The bytes that were there before; fewer of them, where the disk was shorter.
        over: Vec<u8>,
    },
}

/// A disk in memory. It fails at each call after a number of calls, and at a write past its capacity.
#[derive(Drop)]
pub struct MemoryDisk {
    alloc: Global,
    bytes: Vec<u8>,
    // The oldest first.
    calls: Vec<Call>,
    capacity: u32,
    // How many calls are left before each one fails; None on a disk that never stops.
    left: Option<u32>,
    faults: u64,
}

impl Model for MemoryDisk {
    ghost use Rattle.pol_disk.specs.Records.{DiskRecord, IsLeft};

    ghost Value = { DiskRecord };

    ghost use Rattle.pol_disk.specs.Calls.{deeds_of};

    ghost view = { λ disk. record {
      bytes = disk.bytes.items;
      deeds = deeds_of disk.calls.items;
      faults = disk.faults;
    } };

    ghost invariant = { λ disk. IsLeft disk.bytes.items (deeds_of disk.calls.items) disk.bytes.items };
}

// Copies bytes from a place on into the slice, as many as there are and as it holds.
fn give(bytes: &[u8], at: usize, into: &mut [u8]) -> usize
    requires { at < length bytes.now }
    ensures bound { result ≤ length into.new }
    ensures some { 0 < length into.old → 0 < result }
    ensures read { Reads at result into.new bytes.now }
{
    let count = into.len().min(bytes.len() - at);
    into[..count].copy_from_slice(&bytes[at..at + count]);
    count
}

// Writes a piece over the bytes from a place on, and past their end.
fn put_over(bytes: &mut Vec<u8>, at: usize, piece: &[u8]) -> Result<(), AllocError>
    requires { at ≤ length bytes.old.items }
    ensures ok { OnOk result (Holds at piece.now bytes.old.items bytes.new.items) }
    ensures err { OnErr result (bytes.new.items ≡ bytes.old.items) }
{
    let inside = piece.len().min(bytes.len() - at);
    bytes.extend_from_slice(&piece[inside..])?;
    bytes[at..at + inside].copy_from_slice(&piece[..inside]);
    Ok(())
}

// The write, with its record. Without memory nothing is changed.
fn record_write(
    alloc: Global,
    bytes: &mut Vec<u8>,
    calls: &mut Vec<Call>,
    at: usize,
    piece: &[u8],
) -> Result<(), AllocError>
    requires { at ≤ length bytes.old.items }
    ensures ok { OnOk result (IsWritten at piece.now bytes.old.items bytes.new.items calls.old.items calls.new.items) }
    ensures err { OnErr result ((bytes.new.items ≡ bytes.old.items) × (calls.new.items ≡ calls.old.items)) }
{
    let inside = piece.len().min(bytes.len() - at);
    let over = bytes[at..at + inside].to_vec(alloc)?;
    calls.push(Call::Wrote {
        at: at as u64,
        size: piece.len() as u64,
        over,
    })?;
    let put = put_over(bytes, at, piece);
    if put.is_err() {
        let _ = calls.pop();
    }
    put
}

// Whether a place lies in a range.
#[tactic(auto, using(crate::proofs::Fills::within_tests))]
fn is_within(place: usize, at: u64, size: u64) -> bool
    ensures { result ≡ is_within place (record { at = at; size = size }) }
{
    at <= place as u64 && place as u64 - at < size
}

// Fills one place, where it is wanted.
fn fill_if(bytes: &mut [u8], place: usize, wanted: bool, fill: u8)
    requires { place < length bytes.old }
    ensures { bytes.new ≡ (if wanted then set bytes.old place fill else bytes.old) }
{
    if wanted {
        bytes[place] = fill;
    }
}

// Fills a range of the bytes, as much of it as there is.
fn fill_range(bytes: &mut [u8], at: u64, size: u64, fill: u8)
    ensures { IsFilled fill (record { at = at; size = size } ∷ []) bytes.old bytes.new }
{
    for place in 0..bytes.len() {
        fill_if(bytes, place, is_within(place, at, size), fill);
    }
}

// The range of the newest call, which goes; none where the call was a sync, or where there is none.
fn pop_range(calls: &mut Vec<Call>) -> Option<(u64, u64)>
    ensures { IsPopped (deeds_of calls.old.items) (deeds_of calls.new.items) result }
{
    match calls.pop()? {
        Call::Synced => None,
        Call::Wrote { at, size, over: _ } => Some((at, size)),
    }
}

// Fills what was written since the last sync.
fn fill_written(bytes: &mut [u8], calls: &mut Vec<Call>, fill: u8)
    ensures { IsFilled fill (ranges_of (deeds_of calls.old.items)) bytes.old bytes.new }
{
    'call: while let Some((at, size)) = pop_range(calls) {
        fill_range(bytes, at, size, fill);
    }
}

impl MemoryDisk {
    /// A disk of these bytes, of which a crash leaves nothing else. It fails at each call after the first `stop` calls
    /// and at a write past `capacity`, and then changes nothing.
    pub fn new(
        alloc: Global,
        bytes: &[u8],
        capacity: u32,
        stop: u32,
    ) -> Result<MemoryDisk, AllocError>
        ensures { IfOk result (λ disk. disk ≡ record { bytes = bytes.now; deeds = []; faults = 0 }) }
    {
        Ok(MemoryDisk {
            alloc,
            bytes: bytes.to_vec(alloc)?,
            calls: Vec::new(alloc),
            capacity,
            left: Some(stop),
            faults: 0,
        })
    }

    /// The disk's bytes.
    pub fn bytes(&self) -> &[u8]
        ensures { result.now ≡ self.now.bytes }
    {
        &self.bytes
    }

    /// The disk after a crash: each byte that was written since the last sync that succeeded is this one. It never
    /// stops.
    pub fn crashed(self, fill: u8) -> MemoryDisk
        ensures filled { IsFilled fill (ranges_of self.deeds) self.bytes result.bytes }
        ensures fresh { result.deeds ≡ [] }
        ensures faults { result.faults ≡ self.faults }
    {
        let MemoryDisk {
            alloc,
            bytes,
            calls,
            capacity,
            left: _,
            faults,
        } = self;
        let mut bytes = bytes;
        let mut calls = calls;
        fill_written(&mut bytes, &mut calls, fill);
        calls.clear();
        MemoryDisk {
            alloc,
            bytes,
            calls,
            capacity,
            left: None,
            faults,
        }
    }

    // Counts a fault.
    fn fail(&mut self) -> Failed
        ensures rose { Rose self.old.faults self.new.faults }
        ensures later { self.old.faults ≤ self.new.faults }
        ensures bytes { self.new.bytes ≡ self.old.bytes }
        ensures deeds { self.new.deeds ≡ self.old.deeds }
        ensures image { IsLeft self.new.bytes self.new.deeds self.new.bytes }
    {
        self.faults = self.faults.saturating_add(1);
        Failed
    }

    // Counts a call: it fails where none is left.
    fn begin(&mut self) -> Result<(), Failed>
        ensures bytes { self.new.bytes ≡ self.old.bytes }
        ensures deeds { self.new.deeds ≡ self.old.deeds }
        ensures image { IsLeft self.new.bytes self.new.deeds self.new.bytes }
        ensures cause { HasCause self.old.faults self.new.faults result }
    {
        match self.left {
            None => Ok(()),
            Some(0) => Err(self.fail()),
            Some(left) => {
                self.left = Some(left - 1);
                Ok(())
            }
        }
    }

    // The write with its record, or neither where there is no memory.
    fn try_write(&mut self, at: usize, piece: &[u8]) -> Result<(), AllocError>
        requires { at ≤ length self.old.bytes }
        ensures ok { OnOk result (Writes at piece.now self.old self.new) }
        ensures images { OnOk result (Follows (Torn at (length piece.now))
            (IsLeft self.old.bytes self.old.deeds) (IsLeft self.new.bytes self.new.deeds)) }
        ensures image { IsLeft self.new.bytes self.new.deeds self.new.bytes }
        ensures err { OnErr result (self.new ≡ self.old) }
    {
        record_write(self.alloc, &mut self.bytes, &mut self.calls, at, piece)?;
        Ok(())
    }

    // The record of a sync.
    fn try_sync(&mut self) -> Result<(), AllocError>
        ensures ok { OnOk result (self.new ≡ record {
          bytes = self.old.bytes;
          deeds = synced ∷ self.old.deeds;
          faults = self.old.faults;
        }) }
        ensures images { OnOk result (Keeps
            (IsLeft self.old.bytes self.old.deeds) (IsLeft self.new.bytes self.new.deeds)) }
        ensures image { IsLeft self.new.bytes self.new.deeds self.new.bytes }
        ensures err { OnErr result (self.new ≡ self.old) }
    {
        self.calls.push(Call::Synced)?;
        Ok(())
    }
}

impl Disk for MemoryDisk {
    ghost bytes = { λ disk. Some disk.bytes };

    ghost images = { λ disk image. IsLeft disk.bytes disk.deeds image };

    ghost moment = { λ disk. length disk.deeds };

    ghost left_since = { λ disk t image. LeftSince disk.bytes disk.deeds t image };

    ghost faults = { λ disk. disk.faults };

    ghost counts_now = { λ disk t image le now. left_now disk.bytes disk.deeds t image le now };

    ghost only_now = { λ disk image left. left_only_now disk.bytes disk.deeds image left };

    fn len(&mut self) -> Result<u64, Failed> {
        self.begin()?;
        Ok(self.bytes.len() as u64)
    }

    fn read(&mut self, at: u64, into: &mut [u8]) -> Result<usize, Failed> {
        self.begin()?;
        Ok(give(&self.bytes, at as usize, into))
    }

    fn write_at(&mut self, at: u64, piece: &[u8]) -> Result<(), Failed> {
        self.begin()?;
        let room = u64::from(self.capacity).saturating_sub(at);
        if piece.len() as u64 > room {
            return Err(self.fail());
        }
        match self.try_write(at as usize, piece) {
            Ok(()) => Ok(()),
            Err(_) => Err(self.fail()),
        }
    }

    fn sync(&mut self) -> Result<(), Failed> {
        self.begin()?;
        match self.try_sync() {
            Ok(()) => Ok(()),
            Err(_) => Err(self.fail()),
        }
    }
}

//! A file in a folder as a disk.
ghost use Rattle.std.specs.Prelude.{◌≡◌, ◌<◌, ◌≤◌, ℕ, List, IfOk, IfSome, OnOk, OnErr, length, take};
ghost use Rattle.std.specs.Io.{ReadsAtMost};
ghost use Rattle.pol_io.specs.Causes.{Rose};
ghost use Rattle.pol_disk.specs.Answers.{GivesImage, GoesOn, MayLeave, MightHaveLeft, brought, bytes_told, measured, read, told_first, tried, written};
ghost use Rattle.pol_disk.specs.Disks.{Follows, Keeps, Torn};
ghost use Rattle.pol_disk.specs.Records.{left_now, left_only_now};
ghost use Rattle.pol_file.specs.Notes.{FileState, noted, unopened};

use crate::opening::Opened;
use crate::record::Record;
use crate::start::Start;
use pol_disk::Disk;
use pol_io::Failed;
use std::io::{self, ErrorKind};
use std::marker::{Model, PhantomData};

// What a call is noted as.
const MEASURED: u64 = 0;

const READ: u64 = 1;

const WRITTEN: u64 = 2;

const TRIED: u64 = 3;

const BROUGHT: u64 = 4;

// How far the use of a file has come.
#[derive(Drop)]
enum Stage {
    Unopened,
    Open(Opened),
    // A sync failed. A later one would succeed, and write nothing of what that one should have.
    Ended,
}

/// A regular file, opened and locked at the first call, and made where there is none. No link is followed at its name.
/// Each error counts as a fault, and so does a lock that another holds, on the file or on its folder. Once a sync
/// failed each call fails. What is known of its bytes and images is known by its calls with their answers, from what
/// the file held at first, which `S` stands for; once an answer was no disk's, no bytes are known any more.
#[derive(Drop)]
pub struct FileDisk<'a, S: Start> {
    rt: &'a HostRuntime,
    path: &'a str,
    folder: &'a str,
    stage: Stage,
    log: Record,
    start: PhantomData<S>,
    faults: u64,
    in_use: bool,
}

impl<'a, S: Start> Model for FileDisk<'a, S> {
    ghost use Rattle.pol_disk.specs.Answers.{GivesImage, told_after, told_first};
    ghost use Rattle.pol_file.specs.Notes.{FileState};

    ghost Value = { FileState };

    ghost view = { λ disk. record {
      told = told_after (told_first S.Start.bytes S.Start.deeds) disk.log.calls;
      faults = disk.faults;
      in_use = disk.in_use;
    } };

    ghost invariant = { λ disk. GivesImage (told_after (told_first S.Start.bytes S.Start.deeds) disk.log.calls) };
}

// What a call answers once a sync failed.
fn ended() -> io::Error {
    ErrorKind::NotFound.into()
}

impl<'a, S: Start> FileDisk<'a, S> {
    /// The file at a path in a folder; it isn't opened yet. The start is used up, so that one file has it.
    pub fn new(rt: &'a HostRuntime, path: &'a str, folder: &'a str, _start: S) -> FileDisk<'a, S>
        ensures { result ≡ unopened (told_first S.Start.bytes S.Start.deeds) }
    {
        FileDisk {
            rt,
            path,
            folder,
            stage: Stage::Unopened,
            log: Record::new(),
            start: PhantomData,
            faults: 0,
            in_use: false,
        }
    }

    /// Whether a lock of another program was why a call failed.
    pub fn is_in_use(&self) -> bool
        ensures { result ≡ self.now.in_use }
    {
        self.in_use
    }

    // Opens the file where that wasn't done yet.
    fn open(&mut self) -> io::Result<()>
        ensures same { self.new ≡ self.old }
        ensures image { GivesImage self.new.told }
    {
        if let Stage::Unopened = self.stage {
            let opened = Opened::open(self.rt, self.path, self.folder)?;
            self.stage = Stage::Open(opened);
        }
        Ok(())
    }

    // Counts a fault; that it comes from another's lock is noted.
    fn fail(&mut self, error: &io::Error) -> Failed
        ensures rose { Rose self.old.faults self.new.faults }
        ensures later { self.old.faults ≤ self.new.faults }
        ensures told { self.new.told ≡ self.old.told }
        ensures image { GivesImage self.new.told }
    {
        self.faults = self.faults.saturating_add(1);
        if error.kind() == ErrorKind::WouldBlock {
            self.in_use = true;
        }
        Failed
    }

    // The length, noted.
    fn try_len(&mut self) -> io::Result<u64>
        ensures ok { IfOk result (λ size. self.new ≡ noted (measured size) self.old) }
        ensures err { OnErr result (self.new ≡ self.old) }
        ensures image { GivesImage self.new.told }
    {
        self.open()?;
        let size = match &self.stage {
            Stage::Open(opened) => opened.len()?,
            _ => return Err(ended()),
        };
        self.log.note(&[MEASURED, size], &[]);
        Ok(size)
    }

    // A read, noted with the bytes that it gave.
    fn try_read(&mut self, at: u64, into: &mut [u8]) -> io::Result<usize>
        ensures bound { ReadsAtMost result into.new }
        ensures progress { 0 < length into.old → IfOk result (λ count. 0 < count) }
        ensures ok { IfOk result (λ count. self.new ≡ noted (read at (take count into.new)) self.old) }
        ensures err { OnErr result (self.new ≡ self.old) }
        ensures image { GivesImage self.new.told }
    {
        self.open()?;
        let count = match &self.stage {
            Stage::Open(opened) => opened.read(at, into)?,
            _ => return Err(ended()),
        };
        self.log.note(&[READ, at], &into[..count]);
        Ok(count)
    }

    // The write itself, which isn't noted yet.
    fn write_there(&mut self, at: u64, piece: &[u8]) -> io::Result<()>
        ensures same { self.new ≡ self.old }
        ensures image { GivesImage self.new.told }
    {
        self.open()?;
        match &self.stage {
            Stage::Open(opened) => opened.write(at, piece),
            _ => Err(ended()),
        }
    }

    // A write, noted as made where the file took the whole piece, and else as tried.
    fn try_write(&mut self, at: u64, piece: &[u8]) -> io::Result<()>
        requires { IfSome (bytes_told self.old.told) (λ all. at ≤ length all) }
        ensures ok { OnOk result (self.new ≡ noted (written at piece.now) self.old) }
        ensures err { OnErr result (self.new ≡ noted (tried at piece.now) self.old) }
        ensures image { GivesImage self.new.told }
        ensures images { Follows (Torn at (length piece.now)) (MayLeave self.old.told) (MayLeave self.new.told) }
        ensures time { GoesOn self.old.told self.new.told }
    {
        match self.write_there(at, piece) {
            Ok(()) => {
                self.log.note(&[WRITTEN, at], piece);
                Ok(())
            }
            Err(error) => {
                self.log.note(&[TRIED, at], piece);
                Err(error)
            }
        }
    }

    // The sync itself, which isn't noted yet.
    fn sync_there(&mut self) -> io::Result<()>
        ensures same { self.new ≡ self.old }
        ensures image { GivesImage self.new.told }
    {
        self.open()?;
        match &self.stage {
            Stage::Open(opened) => opened.sync(),
            _ => Err(ended()),
        }
    }

    // A sync, noted where it succeeded. Where it failed nothing more is asked of the file.
    fn try_sync(&mut self) -> io::Result<()>
        ensures ok { OnOk result (self.new ≡ noted brought self.old) }
        ensures err { OnErr result (self.new ≡ self.old) }
        ensures images { Keeps (MayLeave self.old.told) (MayLeave self.new.told) }
        ensures image { GivesImage self.new.told }
    {
        let done = self.sync_there();
        if done.is_err() {
            self.stage = Stage::Ended;
            return done;
        }
        self.log.note(&[BROUGHT], &[]);
        Ok(())
    }
}

impl<'a, S: Start> Disk for FileDisk<'a, S> {
    ghost bytes = { λ disk. bytes_told disk.told };

    ghost images = { λ disk. MayLeave disk.told };

    ghost moment = { λ disk. length disk.told.deeds };

    ghost left_since = { λ disk. MightHaveLeft disk.told };

    ghost faults = { λ disk. disk.faults };

    ghost counts_now = { λ disk t image le now. left_now disk.told.bytes disk.told.deeds t image le now };

    ghost only_now = { λ disk image left. left_only_now disk.told.bytes disk.told.deeds image left };

    fn len(&mut self) -> Result<u64, Failed> {
        match self.try_len() {
            Ok(size) => Ok(size),
            Err(error) => Err(self.fail(&error)),
        }
    }

    fn read(&mut self, at: u64, into: &mut [u8]) -> Result<usize, Failed> {
        match self.try_read(at, into) {
            Ok(count) => Ok(count),
            Err(error) => Err(self.fail(&error)),
        }
    }

    fn write_at(&mut self, at: u64, piece: &[u8]) -> Result<(), Failed> {
        match self.try_write(at, piece) {
            Ok(()) => Ok(()),
            Err(error) => Err(self.fail(&error)),
        }
    }

    fn sync(&mut self) -> Result<(), Failed> {
        match self.try_sync() {
            Ok(()) => Ok(()),
            Err(error) => Err(self.fail(&error)),
        }
    }
}

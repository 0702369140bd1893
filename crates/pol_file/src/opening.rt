//! A file of the operating system, opened for a disk: what is asked of the system, call by call.
ghost use Rattle.std.specs.Prelude.{◌<◌, IfOk, length};
ghost use Rattle.std.specs.Io.{ReadsAtMost};

use sqlite_std_file::OpenError;
use std::fs::{self, File, OpenOptions, TryLockError};
use std::io::{self, ErrorKind};
use std::os::fd::AsRawFd;
use std::os::unix::fs::{FileExt, MetadataExt, OpenOptionsExt};

/// An open file, and its folder, which is locked as long as this lives.
#[derive(Drop)]
pub struct Opened {
    file: File,
    folder: File,
    // How long the process may make a file.
    limit: u64,
}

// Who may read and write a file that is made: its owner may do both, others may read it.
const MODE: u32 = 0o644;

// The highest number of a standard stream.
const LAST_STREAM: i32 = 2;

// Where Linux shows a process its limits, and how it names the one on the length of a file.
const LIMITS: &str = "/proc/self/limits";

const LIMIT_ON_LENGTH: &str = "Max file size";

// Opens the file that is there. Since an open follows links, what is at its name is looked at before and after.
fn open_there(rt: &HostRuntime, path: &str) -> io::Result<File> {
    if !fs::symlink_metadata(rt, path)?.is_file() {
        return Err(ErrorKind::Unsupported.into());
    }
    let file = OpenOptions::new().read(true).write(true).open(rt, path)?;
    let (found, named) = (file.metadata()?, fs::symlink_metadata(rt, path)?);
    if found.dev() != named.dev() || found.ino() != named.ino() || !found.is_file() {
        return Err(ErrorKind::Unsupported.into());
    }
    Ok(file)
}

// Makes the file, or opens the one that is there.
fn open_or_make(rt: &HostRuntime, path: &str) -> io::Result<File> {
    match OpenOptions::new()
        .read(true)
        .write(true)
        .create_new(true)
        .mode(MODE)
        .open(rt, path)
    {
        Err(error) if error.kind() == ErrorKind::AlreadyExists => open_there(rt, path),
        made => made,
    }
}

// The same file at a number that no standard stream has. Where one was closed, the next file that is opened gets its
// number, and what is meant for the stream would be written over that file.
pub(crate) fn above_streams(file: File) -> io::Result<File> {
    if file.as_raw_fd() > LAST_STREAM {
        return Ok(file);
    }
    file.try_clone()
}

// Locks a file or a folder against all who open it anew. `WouldBlock` comes where another holds a lock, and from
// nothing else that is asked of a file.
fn lock(file: &File) -> io::Result<()> {
    match file.try_lock() {
        Ok(()) => Ok(()),
        Err(TryLockError::WouldBlock) => Err(ErrorKind::WouldBlock.into()),
        Err(TryLockError::Error(error)) => Err(error),
    }
}

// Why the kit's file couldn't be opened, as an error of the system.
fn error_of(error: OpenError) -> io::Error {
    match error {
        OpenError::Io(error) => error,
        OpenError::OutOfMemory => ErrorKind::OutOfMemory.into(),
        OpenError::Busy => ErrorKind::WouldBlock.into(),
        OpenError::HotJournal => ErrorKind::Unsupported.into(),
    }
}

// Sees to it that reads give what the device has: what an earlier program left unwritten is synced, and then the
// kernel's copies are dropped. Where a sync failed the kernel may hold bytes that the device never got, for written.
// The kit's file for SQLite does just that when it is opened; the log that it makes beside the file is removed again.
fn settle(rt: &HostRuntime, path: &str) -> io::Result<()> {
    let log = format!(in rt.alloc(); "{path}-wal")?;
    let is_new = !fs::exists(rt, log.as_str())?;
    let settled = match sqlite_std_file::open(rt, path, sqlite_std_file::Unknown) {
        Ok(_files) => Ok(()),
        Err(error) => Err(error_of(error)),
    };
    if is_new && fs::exists(rt, log.as_str())? {
        fs::remove_file(rt, log.as_str())?;
    }
    settled
}

// The limit that a line of Linux's table of limits gives, where it is the one on the length of a file.
fn limit_in(line: &str) -> Option<u64> {
    let told = line.strip_prefix(LIMIT_ON_LENGTH)?;
    match told.split_whitespace().next()?.parse::<u64>() {
        Ok(limit) => Some(limit),
        Err(_) => None,
    }
}

// How long this process may make a file; where no limit is given, as long as it likes.
fn limit_on_length(rt: &HostRuntime) -> u64 {
    match fs::read_to_string(rt, LIMITS) {
        Ok(table) => table.lines().find_map(limit_in).unwrap_or(u64::MAX),
        Err(_) => u64::MAX,
    }
}

// One read, done again where it is interrupted.
fn read_again(file: &File, at: u64, into: &mut [u8]) -> io::Result<usize>
    ensures bound { ReadsAtMost result into.new }
{
    for _ in 0..u64::MAX {
        match file.read_at(into, at) {
            Ok(count) => return Ok(count),
            Err(error) => {
                if error.kind() != ErrorKind::Interrupted {
                    return Err(error);
                }
            }
        }
    }
    Err(ErrorKind::Interrupted.into())
}

impl Opened {
    /// Opens and locks the file at a path in a folder, and makes it where there is none. The folder is locked too, so
    /// that a file that was moved away leaves no place for another; and it is synced, so that the file's name outlives
    /// a crash. What reads give then is what the device has.
    pub(crate) fn open(rt: &HostRuntime, path: &str, folder: &str) -> io::Result<Opened> {
        let folder = above_streams(File::open(rt, folder)?)?;
        lock(&folder)?;
        let file = above_streams(open_or_make(rt, path)?)?;
        lock(&file)?;
        folder.sync_all()?;
        settle(rt, path)?;
        let limit = limit_on_length(rt);
        Ok(Opened {
            file,
            folder,
            limit,
        })
    }

    /// How many bytes the file has.
    pub(crate) fn len(&self) -> io::Result<u64> {
        Ok(self.file.metadata()?.len())
    }

    /// Reads some bytes from a place on. Where it finds none there, that is an error.
    pub(crate) fn read(&self, at: u64, into: &mut [u8]) -> io::Result<usize>
        ensures bound { ReadsAtMost result into.new }
        ensures progress { 0 < length into.old → IfOk result (λ count. 0 < count) }
    {
        let count = read_again(&self.file, at, into)?;
        if count == 0 && !into.is_empty() {
            return Err(ErrorKind::UnexpectedEof.into());
        }
        Ok(count)
    }

    /// Writes the whole piece at a place. What would go past the limit on a file's length isn't begun, since the system
    /// ends a program that does it.
    pub(crate) fn write(&self, at: u64, piece: &[u8]) -> io::Result<()> {
        if at > self.limit || piece.len() as u64 > self.limit - at {
            return Err(ErrorKind::FileTooLarge.into());
        }
        self.file.write_all_at(piece, at)
    }

    /// Brings the bytes and the length of the file to the device.
    pub(crate) fn sync(&self) -> io::Result<()> {
        self.file.sync_data()
    }
}

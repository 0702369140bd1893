//! A file that is only read.
use crate::opening::above_streams;
use std::fs::{self, File};
use std::io::{self, ErrorKind, Read};

/// A regular file that is only read, from its front to its end, and opened at the first read: it isn't made where there
/// is none, no lock is taken, and nothing is written. So it may be read while a program keeps it.
#[derive(Drop)]
pub struct FileToRead<'a> {
    rt: &'a HostRuntime,
    path: &'a str,
    opened: Option<File>,
}

// Whether there is anything by that name.
fn is_there(rt: &HostRuntime, path: &str) -> bool {
    fs::symlink_metadata(rt, path).is_ok()
}

// Opens the regular file that is there. No link is followed.
fn open_regular(rt: &HostRuntime, path: &str) -> io::Result<File> {
    if !fs::symlink_metadata(rt, path)?.is_file() {
        return Err(ErrorKind::Unsupported.into());
    }
    above_streams(File::open(rt, path)?)
}

impl<'a> FileToRead<'a> {
    /// The file at a path, where there is something by that name, and nothing by the other one.
    pub fn unless(rt: &'a HostRuntime, path: &'a str, other: &str) -> Option<FileToRead<'a>> {
        if is_there(rt, other) || !is_there(rt, path) {
            return None;
        }
        Some(FileToRead {
            rt,
            path,
            opened: None,
        })
    }
}

impl Read for FileToRead<'_> {
    fn read(&mut self, into: &mut [u8]) -> io::Result<usize> {
        if let Some(file) = &mut self.opened {
            return file.read(into);
        }
        let mut file = open_regular(self.rt, self.path)?;
        let done = file.read(into);
        self.opened = Some(file);
        done
    }
}

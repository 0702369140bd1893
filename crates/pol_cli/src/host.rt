//! The program over a runtime and two disks: its words, its source, its sink, its clock and its exit status.
use crate::program::{end, top};
use crate::status::Status;
use pol_disk::Disk;
use pol_io::{ReaderSource, SystemClock, WriterSink};
use pol_live::OpenGate;
use std::env;
use std::io::{self, BufWriter, ErrorKind, Read};
use std::process::ExitCode;
use std::rt::{Clock, Env};
use std::sync::Wait;
use std::thread::Threads;

/// How many bytes of output are kept back at most, until they are handed on together.
const KEPT_BACK: usize = 65_536;

// The words of the command line, the program's name first.
fn words<R: Env + AllocGlobal>(rt: &R) -> io::Result<Vec<String>> {
    let mut words = Vec::new(rt.alloc());
    for word in env::args(rt)? {
        words.push(word)?;
    }
    Ok(words)
}

// How the program ends where it can't read its words: one that isn't UTF-8 asks for no task.
fn unread(error: &io::Error) -> Status {
    match error.kind() {
        ErrorKind::InvalidData => Status::BadWords,
        _ => Status::OutOfMemory,
    }
}

// Does what the words ask for, with the runtime's input, output and clock, and with this disk, this ledger and this
// file.
fn do_asked<R, D: Disk + Drop, L: Disk + Drop, F: Read + Drop, U: Fn(&L) -> bool>(
    rt: &R,
    disk: D,
    ledger: L,
    is_in_use: &U,
    file: Option<F>,
) -> Status
where
    R: Env + Input + Print + Clock + AllocGlobal + Threads + Wait + Sync,
    requires { U.IsAlwaysCallable is_in_use.now }
{
    let words = match words(rt) {
        Ok(words) => words,
        Err(error) => return unread(&error),
    };
    let Ok(out) = BufWriter::with_capacity(rt.alloc(), KEPT_BACK, io::writer(rt)) else {
        return Status::OutOfMemory;
    };
    let mut source = ReaderSource::new(rt.reader());
    let mut sink = WriterSink::new(out);
    let clock = SystemClock::new(rt);
    let mut file = file.map(ReaderSource::new);
    let (status, _disk, ledger) = top(
        rt,
        rt.alloc(),
        &words,
        &mut source,
        &mut sink,
        clock,
        &OpenGate,
        disk,
        ledger,
        &mut file,
    );
    end(status.told_of_use(is_in_use(&ledger)), &mut sink)
}

// Says how the job ended, where not all is good. That standard error takes it is not asked.
fn say<R: Eprint + AllocGlobal>(rt: &R, status: &Status) {
    if let Status::Good = status {
        return;
    }
    let _said = match status.text(rt.alloc()) {
        Ok(text) => match str::from_utf8(&text) {
            Ok(text) => eprintln!(rt; "{text}"),
            Err(_) => unreachable!(),
        },
        Err(_) => eprintln!(rt; "pol: out of memory"),
    };
}

/// The program: it does what its words ask for (`top`), keeps a plant on this disk, or one that is operated on this
/// ledger, or writes the journal of one of them, of the operated one where its file is given, where they ask for that,
/// hands on what it wrote (`end`), says on standard error how it ended where not all is good, and ends with the
/// status's number. Where the ledger failed since another program has it open, as the ledger is asked, that is the
/// status.
pub fn run<R, D: Disk + Drop, L: Disk + Drop, F: Read + Drop, U: Fn(&L) -> bool>(
    rt: &R,
    disk: D,
    ledger: L,
    is_in_use: &U,
    file: Option<F>,
) -> ExitCode
where
    R: Env + Input + Print + Eprint + Clock + AllocGlobal + Threads + Wait + Sync,
    requires { U.IsAlwaysCallable is_in_use.now }
{
    let status = do_asked(rt, disk, ledger, is_in_use, file);
    say(rt, &status);
    ExitCode::from(status.number())
}

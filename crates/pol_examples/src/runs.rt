//! Running the program's jobs over memory.
use super::looking_back::output_of;
use given::words_of;
use pol_cli::{Status, top};
use pol_disk::MemoryDisk;
use pol_io::{MemoryClock, MemorySink, MemorySource, Sink, Source, SureSink, SureSource};
use pol_live::OpenGate;
use std::alloc::{AllocError, Global};
use std::process::Abort;
use std::sync::Wait;
use std::test::Fail;
use std::thread::Threads;

/// A journal with the output that is wanted, byte for byte.
#[derive(Clone, Copy)]
pub struct Journal {
    pub title: &'static str,
    pub input: &'static str,
    pub output: &'static str,
}

/// A disk without a byte, of which no call fails.
pub fn empty_disk(alloc: Global) -> Result<MemoryDisk, AllocError> {
    MemoryDisk::new(alloc, b"", u32::MAX, u32::MAX)
}

/// How the program's job ends, with a clock that stands still and a gate that lets everybody pass.
pub fn end_of<R: Threads + Wait + Sync, S: Source, K: Sink>(
    rt: &R,
    alloc: Global,
    words: &[String],
    source: &mut S,
    sink: &mut K,
) -> Status {
    let clock = MemoryClock::new(Vec::new(alloc));
    let (Ok(disk), Ok(ledger)) = (empty_disk(alloc), empty_disk(alloc)) else {
        return Status::OutOfMemory;
    };
    let mut file: Option<SureSource> = None;
    let (status, _disk, _ledger) = top(
        rt, alloc, words, source, sink, clock, &OpenGate, disk, ledger, &mut file,
    );
    status
}

/// The number of the status of a run, and whether this is its output.
pub fn run<R: Threads + Wait + Sync>(
    rt: &R,
    alloc: Global,
    line: &str,
    journal: &str,
    output: &str,
) -> Result<(u8, bool), AllocError> {
    let words = words_of(alloc, line)?;
    let mut source = SureSource::new(journal.as_bytes().to_vec(alloc)?);
    let mut sink = SureSink::new(alloc);
    let status = end_of(rt, alloc, &words, &mut source, &mut sink);
    Ok((status.number(), sink.bytes() == output.as_bytes()))
}

/// Gives each journal to the job of these words: it ends with status 0, and its input gives its output.
pub fn run_each<R: Abort + Threads + Wait + Sync>(
    rt: &R,
    alloc: Global,
    line: &str,
    journals: &[Journal],
) -> Result<(), Fail> {
    for journal in journals.iter() {
        let (status, same) = run(rt, alloc, line, journal.input, journal.output)?;
        assert_eq!(rt; status, 0, "{}", journal.title);
        assert!(rt; same, "{}", journal.title);
    }
    Ok(())
}

/// Whether the replay of a journal begins with this output.
pub fn begins<R: Threads + Wait + Sync>(
    rt: &R,
    alloc: Global,
    journal: &str,
    output: &str,
) -> Result<bool, AllocError> {
    let words = words_of(alloc, "pol --job replay")?;
    let mut source = SureSource::new(journal.as_bytes().to_vec(alloc)?);
    let mut sink = SureSink::new(alloc);
    let status = end_of(rt, alloc, &words, &mut source, &mut sink);
    Ok(status.number() == 0 && sink.bytes().starts_with(output.as_bytes()))
}

/// A replay with a source whose call `read` fails and a sink whose call `write` fails, both counted from 1; no call has
/// the number 0.
pub fn run_failing<R: Threads + Wait + Sync>(
    rt: &R,
    alloc: Global,
    journal: &str,
    read: u32,
    write: u32,
    output: &str,
) -> Result<(u8, bool), AllocError> {
    let words = words_of(alloc, "pol --job replay")?;
    let bytes = journal.as_bytes().to_vec(alloc)?;
    let mut source = MemorySource::new(bytes, vec![in alloc; read]?);
    let mut sink = MemorySink::new(alloc, vec![in alloc; write]?);
    let status = end_of(rt, alloc, &words, &mut source, &mut sink);
    Ok((status.number(), sink.bytes() == output.as_bytes()))
}

/// Answers each journal twice, by the program and by looking back: its input gives its output.
pub fn replay_each<R: Abort + Threads + Wait + Sync>(
    rt: &R,
    alloc: Global,
    journals: &[Journal],
) -> Result<(), Fail> {
    for journal in journals.iter() {
        let (status, same) = run(rt, alloc, "pol --job replay", journal.input, journal.output)?;
        assert_eq!(rt; status, 0, "{}", journal.title);
        assert!(rt; same, "{}", journal.title);
        let looked_back = output_of(alloc, journal.input)?;
        assert!(rt;
            looked_back.as_slice() == journal.output.as_bytes(),
            "{}, by looking back",
            journal.title
        );
    }
    Ok(())
}

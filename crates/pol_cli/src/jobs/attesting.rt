//! An audit that says which bytes it read.
ghost use Rattle.std.specs.Prelude.{◌≡◌, ◌++◌, IfOk, OnOk};
ghost use Rattle.pol_jobs.specs.Ends.{Ends, edge};
ghost use Rattle.pol_record.specs.Objects.{data_tokens};
ghost use Rattle.pol_record.specs.Verdicts.{verdict_text};
ghost use Rattle.pol_cli.specs.Attests.{attested, attested_text, read_object, read_text};
ghost use Rattle.pol_cli.specs.Audits.{audit_of};

use crate::jobs::auditing::Auditing;
use json::Writer;
use pol_io::{MemorySink, MemorySource, Sink, Source};
use pol_jobs::{JobFault, close_with, work};
use pol_record::{ended_line, write_text};
use pol_stream::read_input;
use sha2::{Digest, Sha256};
use std::alloc::{AllocError, Global};
use std::convert::Infallible;

// What a sink in memory holds.
fn held_by(alloc: Global, sink: &MemorySink) -> Result<Vec<u8>, AllocError>
    ensures { IfOk result (λ text. text.items ≡ sink.now.bytes) }
{
    sink.bytes().to_vec(alloc)
}

// The line of the verdict over some bytes. They are in memory, so the only fault is that there is no more memory.
fn verdict_on(alloc: Global, bytes: Vec<u8>) -> Result<Vec<u8>, AllocError>
    ensures { IfOk result (λ text. text.items ≡ verdict_text (audit_of bytes.items)) }
{
    let mut source = MemorySource::new(bytes, Vec::new(alloc));
    let mut sink = MemorySink::new(alloc, Vec::new(alloc));
    match work(alloc, &mut Auditing::new(alloc), &mut source, &mut sink) {
        Ok(()) => held_by(alloc, &sink),
        Err(JobFault::Read | JobFault::Write | JobFault::Memory | JobFault::TooMuch) => {
            Err(AllocError)
        }
        Err(JobFault::Failed(never)) => match never {},
        Err(JobFault::Refused(never)) => match never {},
    }
}

#[tactic(auto, using(crate::proofs::Attesting::read_tokens))]
fn write_read(writer: &mut Writer, count: u64, sum: &str) -> Result<(), AllocError>
    ensures tokens { OnOk result (writer.new.tokens
        ≡ writer.old.tokens ++ data_tokens (read_object count sum.now)) }
    ensures before { writer.new.before ≡ writer.old.before }
{
    writer.begin_object()?;
    writer.key("bytes")?;
    writer.u64(count)?;
    write_text(writer, "sha256", sum)?;
    writer.end_object()
}

// The line that says which bytes were read.
#[tactic(auto, using(pol_record::proofs::Tokens::line_of_tokens))]
fn read_line(alloc: Global, bytes: &[u8]) -> Result<Vec<u8>, AllocError>
    ensures { IfOk result (λ line. line.items ≡ read_text bytes.now) }
{
    let sum = hex::encode(alloc, Sha256::digest(bytes))?;
    let mut writer = Writer::new(Vec::new(alloc));
    write_read(&mut writer, bytes.len() as u64, sum.as_str())?;
    ended_line(writer)
}

// The two lines for an input.
fn attested_text(alloc: Global, bytes: Vec<u8>) -> Result<Vec<u8>, AllocError>
    ensures { IfOk result (λ text. text.items ≡ attested_text bytes.items) }
{
    let read = read_line(alloc, &bytes)?;
    let mut text = verdict_on(alloc, bytes)?;
    text.extend_from_slice(&read)?;
    Ok(text)
}

/// Reads an input to its end, and then writes the line of the verdict over it, and the line that says how many bytes it
/// has and their SHA-256. The input is held in memory meanwhile.
pub fn attest<S: Source, K: Sink>(
    alloc: Global,
    source: &mut S,
    sink: &mut K,
) -> Result<(), JobFault<Infallible, Infallible>>
    ensures { Ends attested
        (edge (S.left source.old) (S.faults source.old)) (edge (S.left source.new) (S.faults source.new))
        (edge (K.held sink.old) (K.faults sink.old)) (edge (K.held sink.new) (K.faults sink.new)) result }
{
    let bytes = read_input(alloc, source)?;
    close_with(sink, attested_text(alloc, bytes))?;
    Ok(())
}

//! Readers and writers that give and take little at a time or much, are interrupted, or fail in the middle of a journal;
//! and a disk that fills up.
use super::batches::DOSING_AND_MIXING;
use super::runs::end_of;
use given::words_of;
use pol_cli::end;
use pol_io::{ReaderSource, SureSource, WriterSink};
use std::alloc::Global;
use std::io::{self, BufWriter, ErrorKind, Read, Write};
use std::sync::Wait;
use std::test::Fail;
use std::thread::Threads;

// A reader that gives one byte a call. Before each of them it is interrupted so many times in a row, and the call with
// the number `failing` fails; no call has the number 0.
#[derive(Drop)]
struct Drops<'a> {
    bytes: &'a [u8],
    calls: u32,
    interruptions: u32,
    failing: u32,
}

impl<'a> Drops<'a> {
    fn new(text: &'a str, interruptions: u32, failing: u32) -> Drops<'a> {
        Drops {
            bytes: text.as_bytes(),
            calls: 0,
            interruptions,
            failing,
        }
    }
}

// Whether the call with this number is interrupted, where so many in a row are.
fn is_interrupted(call: u32, interruptions: u32) -> bool {
    u64::from(call) % (u64::from(interruptions) + 1) != 0
}

impl<'a> Read for Drops<'a> {
    fn read(&mut self, into: &mut [u8]) -> io::Result<usize> {
        self.calls = self.calls.saturating_add(1);
        if is_interrupted(self.calls, self.interruptions) {
            return Err(io::Error::from(ErrorKind::Interrupted));
        }
        if self.calls == self.failing {
            return Err(io::Error::from(ErrorKind::ConnectionReset));
        }
        let Some((first, rest)) = self.bytes.split_first() else {
            return Ok(0);
        };
        let Some(place) = into.first_mut() else {
            return Ok(0);
        };
        *place = *first;
        self.bytes = rest;
        Ok(1)
    }
}

// A writer that takes at most so many bytes of a piece. Before each piece it is interrupted so many times in a row.
#[derive(Drop)]
struct Sips {
    taken: Vec<u8>,
    calls: u32,
    most: usize,
    interruptions: u32,
}

impl Sips {
    fn new(alloc: Global, most: usize, interruptions: u32) -> Sips {
        Sips {
            taken: Vec::new(alloc),
            calls: 0,
            most,
            interruptions,
        }
    }
}

impl Write for Sips {
    fn write(&mut self, piece: &[u8]) -> io::Result<usize> {
        self.calls = self.calls.saturating_add(1);
        if is_interrupted(self.calls, self.interruptions) {
            return Err(io::Error::from(ErrorKind::Interrupted));
        }
        let size = piece.len().min(self.most);
        self.taken.extend_from_slice(&piece[..size])?;
        Ok(size)
    }

    fn flush(&mut self) -> io::Result<()> {
        Ok(())
    }
}

// The status of a replay from the reader to the writer.
fn replay<R: Threads + Wait + Sync>(
    rt: &R,
    alloc: Global,
    reader: Drops<'_>,
    writer: &mut Sips,
) -> Result<u8, Fail> {
    let words = words_of(alloc, "pol --job replay")?;
    let mut source = ReaderSource::new(reader);
    let mut sink = WriterSink::new(writer);
    Ok(end_of(rt, alloc, &words, &mut source, &mut sink).number())
}

#[test]
fn little_at_a_time_and_interrupted_is_no_fault(rt: HostRuntime) -> Result<(), Fail> {
    let journal = DOSING_AND_MIXING;
    for (reads, writes) in [(0, 0), (1, 0), (0, 1), (7, 40), (40, 7)] {
        let reader = Drops::new(journal.input, reads, 0);
        let mut writer = Sips::new(rt.alloc(), 3, writes);
        let status = replay(&rt, rt.alloc(), reader, &mut writer)?;
        assert_eq!(rt; status, 0, "{reads} {writes}");
        assert!(rt; writer.taken.as_slice() == journal.output.as_bytes());
    }
    Ok(())
}

#[test]
fn a_read_that_fails_in_the_middle_keeps_the_answers_before_it(
    rt: HostRuntime,
) -> Result<(), Fail> {
    let bad = "{\"bad\":\"WrongKind\",\"path\":\"\"}\n";
    let cases = [(1, ""), (3, ""), (4, "1"), (5, "1"), (9, "11"), (11, "11")];
    for (failing, lines) in cases {
        let mut writer = Sips::new(rt.alloc(), 3, 0);
        let status = replay(
            &rt,
            rt.alloc(),
            Drops::new("[]\n [] \n[]", 0, failing),
            &mut writer,
        )?;
        let answers = bad.repeat(rt.alloc(), lines.len())?;
        assert_eq!(rt; status, 3, "read {failing}");
        assert!(rt;
            writer.taken.as_slice() == answers.as_bytes(),
            "read {failing}"
        );
    }
    Ok(())
}

// A module at rest, a recipe whose loop is never left, and a batch of it.
const LOOP_BEGINS: &str =
    r#"{"at":1,"desc":{"services":[{"name":"dose","procedures":[{"default":true,"number":1,"params":[{"kind":"DIntServParam","max":5000,"min":0,"name":"amount"}],"self_completing":true}]}],"type":"Doser","variables":[{"kind":"AnaView","name":"level"}],"version":"1.0.0"},"ev":"plug","tag":"M"}
{"CommandEn":4,"Mode":"Automatic","ProcedureCur":0,"Src":"External","StateCur":16,"at":2,"ev":"report","service":"dose","tag":"M"}
{"at":3,"chart":{"loop":{"procedure":1,"role":"A","service":"dose","step":"s1"},"until":{"const":false}},"ev":"recipe","recipe":"x","roles":[{"role":"A","type":"Doser","version":"^1"}]}
{"at":4,"batch":"b","bind":{"A":"M"},"ev":"start","recipe":"x"}
"#;

// The loop turns once: its step is started, runs, is reset and ends.
const LOOP_TURNS: &str = r#"{"at":5,"batch":"b","ev":"advance"}
{"CommandEn":0,"Mode":"Automatic","ProcedureCur":0,"Src":"External","StateCur":8,"at":6,"ev":"report","service":"dose","tag":"M"}
{"CommandEn":0,"Mode":"Automatic","ProcedureCur":0,"Src":"External","StateCur":64,"at":7,"ev":"report","service":"dose","tag":"M"}
{"CommandEn":0,"Mode":"Automatic","ProcedureCur":0,"Src":"External","StateCur":65536,"at":8,"ev":"report","service":"dose","tag":"M"}
{"CommandEn":2,"Mode":"Automatic","ProcedureCur":0,"Src":"External","StateCur":131072,"at":9,"ev":"report","service":"dose","tag":"M"}
{"at":10,"batch":"b","ev":"advance"}
{"CommandEn":0,"Mode":"Automatic","ProcedureCur":0,"Src":"External","StateCur":32768,"at":11,"ev":"report","service":"dose","tag":"M"}
{"CommandEn":4,"Mode":"Automatic","ProcedureCur":0,"Src":"External","StateCur":16,"at":12,"ev":"report","service":"dose","tag":"M"}
{"at":13,"batch":"b","ev":"advance"}
{"at":14,"batch":"b","ev":"advance"}
"#;

// What is answered to it.
const TURN_ANSWERS: &str =
    r#"{"did":{"do":"start","procedure":1,"service":"dose","step":"s1","tag":"M"}}
{"done":true}
{"done":true}
{"done":true}
{"done":true}
{"did":{"do":"reset","service":"dose","step":"s1","tag":"M"}}
{"done":true}
{"done":true}
{"did":{"do":"end","step":"s1"}}
{"did":{"do":"turn","node":0,"values":[]}}
"#;

// What the batch's log has of it, the comma before it too.
const TURN_LOG: &str =
    r#",{"do":"start","procedure":1,"service":"dose","step":"s1","tag":"M"},{"do":"reset","service":"dose","step":"s1","tag":"M"},{"do":"end","step":"s1"},{"do":"turn","node":0,"values":[]}"#;

#[test]
fn an_output_line_of_more_than_100_000_bytes_is_written(rt: HostRuntime) -> Result<(), Fail> {
    let alloc = rt.alloc();
    let turns = 600;
    let mut journal = String::from_str(alloc, LOOP_BEGINS)?;
    journal.push_str(LOOP_TURNS.repeat(alloc, turns)?.as_str())?;
    let mut output = "{\"done\":true}\n".repeat(alloc, 4)?;
    output.push_str(TURN_ANSWERS.repeat(alloc, turns)?.as_str())?;
    output.push_str("{\"batch\":\"b\",\"bind\":{\"A\":\"M\"},\"log\":[")?;
    let log = TURN_LOG.repeat(alloc, turns)?;
    let Some(log) = log.strip_prefix(",") else {
        return Err(Fail::from("no log"));
    };
    assert!(rt; log.len() > 100_000);
    output.push_str(log)?;
    output.push_str("],\"outcome\":\"Running\",\"recipe\":\"x\"}\n{\"end\":true}\n")?;
    let mut writer = Sips::new(alloc, 1_000_000, 0);
    let reader = Drops::new(journal.as_str(), 0, 0);
    let status = replay(&rt, alloc, reader, &mut writer)?;
    assert_eq!(rt; status, 0);
    assert!(rt; writer.taken.as_slice() == output.as_bytes());
    Ok(())
}

// A writer that takes so many bytes, and then fails.
#[derive(Drop)]
struct Disk {
    taken: Vec<u8>,
    room: usize,
}

impl Write for Disk {
    fn write(&mut self, piece: &[u8]) -> io::Result<usize> {
        if self.room == 0 {
            return Err(io::Error::from(ErrorKind::Other));
        }
        let size = piece.len().min(self.room);
        self.taken.extend_from_slice(&piece[..size])?;
        self.room -= size;
        Ok(size)
    }

    fn flush(&mut self) -> io::Result<()> {
        Ok(())
    }
}

#[test]
fn a_disk_that_is_full_behind_the_last_line_is_a_write_fault(rt: HostRuntime) -> Result<(), Fail> {
    let alloc = rt.alloc();
    let journal = DOSING_AND_MIXING;
    let words = words_of(alloc, "pol --job replay")?;
    let size = journal.output.len();
    for (room, number) in [(0, 4), (size - 1, 4), (size, 0)] {
        let mut disk = Disk {
            taken: Vec::new(alloc),
            room,
        };
        let mut source = SureSource::new(journal.input.as_bytes().to_vec(alloc)?);
        let mut sink = WriterSink::new(BufWriter::with_capacity(alloc, 65_536, &mut disk)?);
        let status = end_of(&rt, alloc, &words, &mut source, &mut sink);
        assert_eq!(rt; end(status, &mut sink).number(), number, "room {room}");
    }
    Ok(())
}

//! Lines of small and of long inputs, calls that fail, what readers and writers of std are as sources and sinks, and
//! clocks.
use pol_io::{
    Clock, DripSink, DripSource, IoFault, LONGEST_LINE, Line, Lines, MemoryClock, MemorySink,
    MemorySource, ReaderSource, Sink, SinkFault, Source, SureSink, SureSource, SystemClock,
    WriterSink, write_all,
};
use std::alloc::Global;
use std::io::{self, BufWriter, ErrorKind, Read, Write};
use std::test::Fail;
use std::time::Duration;

// The lines of a source, each with a bar behind it: `#` for one that is too long, `!` for a failed read.
fn shown<S: Source>(alloc: Global, source: &mut S) -> Result<Vec<u8>, Fail> {
    let mut lines = Lines::new(alloc)?;
    let mut shown = Vec::new(alloc);
    for _ in 0..20u32 {
        if !lines.sound() {
            break;
        }
        match lines.next_line(source) {
            Ok(Line::Text(line)) => shown.extend_from_slice(line)?,
            Ok(Line::TooLong) => shown.push(b'#')?,
            Ok(Line::End) => break,
            Err(IoFault::Read) => shown.push(b'!')?,
            Err(IoFault::TooMuch) => shown.push(b'+')?,
        }
        shown.push(b'|')?;
    }
    Ok(shown)
}

#[test]
fn lines_end_at_a_line_feed_or_at_the_end(rt: HostRuntime) -> Result<(), Fail> {
    for (input, want) in [
        ("", ""),
        ("\n", "|"),
        ("a", "a|"),
        ("a\n", "a|"),
        ("a\r\n\n \r\nb", "a\r|| \r|b|"),
    ] {
        let mut source = SureSource::new(Vec::from_slice(rt.alloc(), input.as_bytes())?);
        let lines = shown(rt.alloc(), &mut source)?;
        assert_eq!(rt; lines.as_slice(), want.as_bytes(), "of {input}");
        let mut reader = ReaderSource::new(input.as_bytes());
        let lines = shown(rt.alloc(), &mut reader)?;
        assert_eq!(rt; lines.as_slice(), want.as_bytes(), "read of {input}");
    }
    Ok(())
}

#[test]
fn lines_come_whole_from_a_source_that_drips(rt: HostRuntime) -> Result<(), Fail> {
    for at_most in [1, 2, 7] {
        let bytes = Vec::from_slice(rt.alloc(), b"ab\n\ncdefgh\ni")?;
        let lines = shown(rt.alloc(), &mut DripSource::new(bytes, at_most))?;
        assert_eq!(rt;
            lines.as_slice(),
            b"ab||cdefgh|i|".as_slice(),
            "by {at_most}"
        );
    }
    Ok(())
}

#[test]
fn a_source_is_needed_where_no_line_waits(rt: HostRuntime) -> Result<(), Fail> {
    let mut lines = Lines::new(rt.alloc())?;
    let mut source = DripSource::new(Vec::from_slice(rt.alloc(), b"a\nb\nc")?, 4);
    for (line, next) in [
        (Line::Text(b"a"), true),
        (Line::Text(b"b"), false),
        (Line::Text(b"c"), true),
        (Line::End, true),
    ] {
        if lines.sound() {
            assert_eq!(rt; lines.next_line(&mut source), Ok(line));
        }
        assert_eq!(rt; lines.has_next(), next, "behind {line:?}");
    }
    Ok(())
}

#[test]
fn a_line_over_the_limit_is_passed_over(rt: HostRuntime) -> Result<(), Fail> {
    let mut input = vec![in rt.alloc(); b'x'; LONGEST_LINE]?;
    input.extend_from_slice(b"\ny")?;
    let lines = shown(rt.alloc(), &mut SureSource::new(input))?;
    assert_eq!(rt; lines.len(), LONGEST_LINE + 3);
    for (end, want) in [
        ("", "#|"),
        ("\n", "#|"),
        ("\ny", "#|y|"),
        ("x\n\ny\n", "#||y|"),
    ] {
        let mut input = vec![in rt.alloc(); b'x'; LONGEST_LINE + 1]?;
        input.extend_from_slice(end.as_bytes())?;
        let lines = shown(rt.alloc(), &mut SureSource::new(input))?;
        assert_eq!(rt; lines.as_slice(), want.as_bytes(), "before {end}");
    }
    Ok(())
}

#[test]
fn a_failed_read_ends_the_lines_and_the_end_is_asked_for_once(rt: HostRuntime) -> Result<(), Fail> {
    for (input, failing, want) in [
        ("a\nb\n", 1, "!|"),
        ("a\nb\n", 2, "a|b|!|"),
        ("a\nb\n", 3, "a|b|"),
        ("a\nb", 2, "a|!|"),
        ("a\nb", 3, "a|b|"),
    ] {
        let bytes = Vec::from_slice(rt.alloc(), input.as_bytes())?;
        let mut source = MemorySource::new(bytes, vec![in rt.alloc(); failing]?);
        let lines = shown(rt.alloc(), &mut source)?;
        assert_eq!(rt;
            lines.as_slice(),
            want.as_bytes(),
            "of {input} where call {failing} fails"
        );
    }
    Ok(())
}

#[test]
fn whole_pieces_are_written_until_the_sink_fails(rt: HostRuntime) -> Result<(), Fail> {
    let mut sure = SureSink::new(rt.alloc());
    assert_eq!(rt; write_all(&mut sure, b"ab"), Ok(()));
    assert_eq!(rt; write_all(&mut sure, b""), Ok(()));
    assert_eq!(rt; write_all(&mut sure, b"c"), Ok(()));
    assert_eq!(rt; sure.bytes(), b"abc".as_slice());
    let mut sink = MemorySink::new(rt.alloc(), vec![in rt.alloc(); 2]?);
    assert_eq!(rt; write_all(&mut sink, b"ab"), Ok(()));
    assert_eq!(rt; write_all(&mut sink, b""), Ok(()));
    assert_eq!(rt; write_all(&mut sink, b"c"), Err(SinkFault::Failed));
    assert_eq!(rt; sink.write(b"d"), Ok(1));
    assert_eq!(rt; sink.bytes(), b"abd".as_slice());
    Ok(())
}

#[test]
fn a_sink_that_drips_takes_whole_pieces(rt: HostRuntime) -> Result<(), Fail> {
    for at_most in [1, 2, 7] {
        let mut sink = DripSink::new(rt.alloc(), at_most);
        assert_eq!(rt; write_all(&mut sink, b"abcde"), Ok(()));
        assert_eq!(rt; write_all(&mut sink, b""), Ok(()));
        assert_eq!(rt; write_all(&mut sink, b"fgh"), Ok(()));
        assert_eq!(rt; sink.flush(), Ok(()));
        assert_eq!(rt; sink.bytes(), b"abcdefgh".as_slice(), "by {at_most}");
    }
    Ok(())
}

// A reader and a writer of one byte a call, of which each other call is interrupted.
#[derive(Drop)]
struct Interrupted {
    bytes: Vec<u8>,
    at: usize,
    calls: u32,
}

impl Interrupted {
    fn new(bytes: Vec<u8>) -> Interrupted {
        Interrupted {
            bytes,
            at: 0,
            calls: 0,
        }
    }

    fn call(&mut self) -> io::Result<()> {
        self.calls = self.calls.wrapping_add(1);
        if self.calls % 2 == 1 {
            return Err(io::Error::from(ErrorKind::Interrupted));
        }
        Ok(())
    }
}

impl Read for Interrupted {
    fn read(&mut self, into: &mut [u8]) -> io::Result<usize> {
        self.call()?;
        let (Some(byte), Some(place)) = (self.bytes.get(self.at), into.first_mut()) else {
            return Ok(0);
        };
        *place = *byte;
        self.at = self.at.saturating_add(1);
        Ok(1)
    }
}

impl Write for Interrupted {
    fn write(&mut self, piece: &[u8]) -> io::Result<usize> {
        self.call()?;
        match piece.first() {
            Some(byte) => match self.bytes.push(*byte) {
                Ok(()) => Ok(1),
                Err(_) => Err(io::Error::from(ErrorKind::OutOfMemory)),
            },
            None => Ok(0),
        }
    }

    fn flush(&mut self) -> io::Result<()> {
        self.call()
    }
}

#[test]
fn interrupted_calls_are_made_again(rt: HostRuntime) -> Result<(), Fail> {
    let bytes = Vec::from_slice(rt.alloc(), b"ab\nc")?;
    let mut source = ReaderSource::new(Interrupted::new(bytes));
    let lines = shown(rt.alloc(), &mut source)?;
    assert_eq!(rt; lines.as_slice(), b"ab|c|".as_slice());
    let mut writer = Interrupted::new(Vec::new(rt.alloc()));
    let mut sink = WriterSink::new(&mut writer);
    assert_eq!(rt; write_all(&mut sink, b"abc"), Ok(()));
    assert_eq!(rt; sink.flush(), Ok(()));
    assert_eq!(rt; writer.bytes.as_slice(), b"abc".as_slice());
    Ok(())
}

#[test]
fn a_flush_hands_on_what_a_writer_keeps(rt: HostRuntime) -> Result<(), Fail> {
    let mut out = BufWriter::with_capacity(rt.alloc(), 8, Vec::new(rt.alloc()))?;
    let mut sink = WriterSink::new(&mut out);
    assert_eq!(rt; write_all(&mut sink, b"abc"), Ok(()));
    assert_eq!(rt; out.get_ref().as_slice(), b"".as_slice());
    let mut sink = WriterSink::new(&mut out);
    assert_eq!(rt; sink.flush(), Ok(()));
    assert_eq!(rt; out.get_ref().as_slice(), b"abc".as_slice());
    Ok(())
}

#[test]
fn a_writer_that_is_full_fails(rt: HostRuntime) {
    let mut room = [0u8; 3];
    let mut sink = WriterSink::new(room.as_mut_slice());
    let wrote = write_all(&mut sink, b"abcd");
    assert_eq!(rt; wrote, Err(SinkFault::Failed));
    assert_eq!(rt; room.as_slice(), b"abc".as_slice());
}

#[test]
fn a_clock_in_memory_ends_at_its_last_moment(rt: HostRuntime) -> Result<(), Fail> {
    let mut clock = MemoryClock::new(Vec::from_slice(rt.alloc(), &[7, 5])?);
    for want in [7, 5, 5, 5] {
        assert_eq!(rt; clock.now(), want);
    }
    let mut clock = MemoryClock::new(Vec::new(rt.alloc()));
    assert_eq!(rt; clock.now(), 0);
    Ok(())
}

// A clock of a runtime that tells this time; it fails where there is none.
#[derive(Drop)]
struct Told {
    time: Option<Duration>,
}

impl std::rt::Clock for Told {
    fn monotonic(&self) -> io::Result<Duration> {
        self.since_1970()
    }

    fn since_1970(&self) -> io::Result<Duration> {
        self.time.ok_or(io::Error::from(io::ErrorKind::Unsupported))
    }
}

#[test]
fn the_clock_of_the_runtime_is_told_in_milliseconds(rt: HostRuntime) {
    for (time, want) in [
        (
            Some(Duration::new(1_700_000_000, 123_999_999)),
            1_700_000_000_123,
        ),
        (Some(Duration::MAX), 0),
        (None, 0),
    ] {
        let mut clock = SystemClock::new(Told { time });
        assert_eq!(rt; clock.now(), want);
        assert_eq!(rt; clock.now(), want);
    }
}

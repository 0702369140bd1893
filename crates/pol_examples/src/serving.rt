//! Jobs whose input and output come and go in small pieces or stop in the middle, and the demo, which reads nothing.
use super::batches::DOSING_AND_MIXING;
use super::runs::{end_of, run};
use given::words_of;
use pol_io::{
    DripSink, DripSource, Failed, LONGEST_INPUT, MemorySource, Sink, SinkFault, Source, SureSink,
};
use std::alloc::Global;
use std::test::Fail;

const PLUG: &str =
    "{\"at\":1,\"desc\":{\"services\":[{\"name\":\"dose\"}],\"type\":\"Doser\",\"version\":\"1.0.0\"},\"ev\":\"plug\",\"tag\":\"M1\"}\n";

const REPORT: &str =
    "{\"CommandEn\":4,\"Mode\":\"Automatic\",\"ProcedureCur\":0,\"Src\":\"External\",\"StateCur\":16,\"at\":2,\"ev\":\"report\",\"service\":\"dose\",\"tag\":\"M1\"}\n";

#[test]
fn a_demo_writes_the_summary_of_its_journal(rt: HostRuntime) -> Result<(), Fail> {
    for (line, output) in [
        (
            "pol --job demo --seed 0",
            "{\"answers\":1028,\"closed\":1,\"refused\":0}\n",
        ),
        (
            "pol --job=demo --seed 0",
            "{\"answers\":1028,\"closed\":1,\"refused\":0}\n",
        ),
        (
            "pol --seed 119 --job demo",
            "{\"answers\":121349,\"closed\":120,\"refused\":12}\n",
        ),
    ] {
        let (status, same) = run(&rt, rt.alloc(), line, PLUG, output)?;
        assert_eq!(rt; status, 0, "{line}");
        assert!(rt; same, "{line}");
    }
    Ok(())
}

#[test]
fn input_and_output_drip(rt: HostRuntime) -> Result<(), Fail> {
    let words = words_of(rt.alloc(), "pol --job replay")?;
    for at_most in [1, 2, 7] {
        let input = Vec::from_slice(rt.alloc(), DOSING_AND_MIXING.input.as_bytes())?;
        let mut source = DripSource::new(input, at_most);
        let mut sink = DripSink::new(rt.alloc(), at_most);
        let status = end_of(&rt, rt.alloc(), &words, &mut source, &mut sink).number();
        assert_eq!(rt; status, 0, "by {at_most}");
        assert!(rt;
            sink.bytes() == DOSING_AND_MIXING.output.as_bytes(),
            "by {at_most}"
        );
    }
    Ok(())
}

#[test]
fn a_line_cut_anywhere_is_not_json(rt: HostRuntime) -> Result<(), Fail> {
    let words = words_of(rt.alloc(), "pol --job replay")?;
    let output = "{\"done\":true}\n{\"bad\":\"NotJson\",\"path\":\"\"}\n{\"end\":true}\n";
    let mut input = Vec::from_slice(rt.alloc(), PLUG.as_bytes())?;
    for byte in REPORT.as_bytes() {
        if *byte == b'}' {
            break;
        }
        input.push(*byte)?;
        let mut source = DripSource::new(Vec::from_slice(rt.alloc(), &input)?, 1_000);
        let mut sink = SureSink::new(rt.alloc());
        let status = end_of(&rt, rt.alloc(), &words, &mut source, &mut sink).number();
        assert_eq!(rt; status, 0, "of {} bytes", input.len());
        assert!(rt;
            sink.bytes() == output.as_bytes(),
            "of {} bytes",
            input.len()
        );
    }
    Ok(())
}

// Some spaces, of which only their number is kept.
#[derive(Drop)]
struct Spaces {
    left: u64,
}

impl Source for Spaces {
    ghost use Rattle.std.specs.Prelude.{None};

    ghost left = { λ _. None };

    ghost faults = { λ _. 0 };

    fn read(&mut self, into: &mut [u8]) -> Result<usize, Failed> {
        let count = self.left.min(into.len() as u64);
        self.left -= count;
        into[..count as usize].fill(b' ');
        Ok(count as usize)
    }
}

#[test]
fn one_byte_more_than_an_input_may_have_is_too_much(rt: HostRuntime) -> Result<(), Fail> {
    let words = words_of(rt.alloc(), "pol --job replay")?;
    for (left, status, output) in [
        (
            LONGEST_INPUT,
            0,
            "{\"bad\":\"TooLong\",\"path\":\"\"}\n{\"end\":true}\n",
        ),
        (LONGEST_INPUT + 1, 6, ""),
    ] {
        let mut source = Spaces { left };
        let mut sink = SureSink::new(rt.alloc());
        let answered = end_of(&rt, rt.alloc(), &words, &mut source, &mut sink).number();
        assert_eq!(rt; answered, status, "{left} spaces");
        assert!(rt; sink.bytes() == output.as_bytes(), "{left} spaces");
    }
    Ok(())
}

// A sink that keeps to itself what it takes until it is asked to hand it on.
#[derive(Drop)]
struct Keeping {
    kept: Vec<u8>,
    handed_on: Vec<u8>,
}

impl Keeping {
    fn new(alloc: Global) -> Keeping {
        Keeping {
            kept: Vec::new(alloc),
            handed_on: Vec::new(alloc),
        }
    }
}

impl Sink for Keeping {
    ghost use Rattle.std.specs.Prelude.{None};

    ghost held = { λ _. None };

    ghost faults = { λ _. 0 };

    fn write(&mut self, piece: &[u8]) -> Result<usize, SinkFault> {
        match self.kept.extend_from_slice(piece) {
            Ok(()) => Ok(piece.len()),
            Err(_) => Err(SinkFault::Memory),
        }
    }

    fn flush(&mut self) -> Result<(), SinkFault> {
        match self.handed_on.extend_from_slice(&self.kept) {
            Ok(()) => {
                self.kept.clear();
                Ok(())
            }
            Err(_) => Err(SinkFault::Memory),
        }
    }
}

#[test]
fn answers_are_handed_on_before_more_input_is_asked_for(rt: HostRuntime) -> Result<(), Fail> {
    let words = words_of(rt.alloc(), "pol --job replay")?;
    let mut input = Vec::from_slice(rt.alloc(), PLUG.as_bytes())?;
    input.extend_from_slice(REPORT.as_bytes())?;
    let mut source = DripSource::new(input, 1_000);
    let mut sink = Keeping::new(rt.alloc());
    let status = end_of(&rt, rt.alloc(), &words, &mut source, &mut sink).number();
    assert_eq!(rt; status, 0);
    assert_eq!(rt;
        sink.handed_on.as_slice(),
        b"{\"done\":true}\n{\"done\":true}\n".as_slice()
    );
    assert_eq!(rt; sink.kept.as_slice(), b"{\"end\":true}\n".as_slice());
    Ok(())
}

#[test]
fn a_read_that_fails_finds_all_answers_handed_on(rt: HostRuntime) -> Result<(), Fail> {
    let words = words_of(rt.alloc(), "pol --job replay")?;
    let mut input = Vec::from_slice(rt.alloc(), PLUG.as_bytes())?;
    input.extend_from_slice(b"{\"at\":2,")?;
    let mut source = MemorySource::new(input, vec![in rt.alloc(); 2]?);
    let mut sink = Keeping::new(rt.alloc());
    let status = end_of(&rt, rt.alloc(), &words, &mut source, &mut sink).number();
    assert_eq!(rt; status, 3);
    assert_eq!(rt; sink.handed_on.as_slice(), b"{\"done\":true}\n".as_slice());
    assert!(rt; sink.kept.is_empty());
    Ok(())
}

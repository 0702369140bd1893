//! Faults of the source and of the sink, and a line that is too long.
use super::batches::DOSING_AND_MIXING;
use super::runs::{end_of, run_failing};
use given::words_of;
use pol_io::{SureSink, SureSource};
use std::test::Fail;

const PLUG_AND_REPORT: &str =
    "{\"at\":1,\"desc\":{\"services\":[{\"name\":\"dose\"}],\"type\":\"Doser\",\"version\":\"1.0.0\"},\"ev\":\"plug\",\"tag\":\"M1\"}\n{\"CommandEn\":4,\"Mode\":\"Automatic\",\"ProcedureCur\":0,\"Src\":\"External\",\"StateCur\":16,\"at\":2,\"ev\":\"report\",\"service\":\"dose\",\"tag\":\"M1\"}\n";

#[test]
fn a_read_that_fails_writes_nothing(rt: HostRuntime) -> Result<(), Fail> {
    let (status, same) = run_failing(&rt, rt.alloc(), PLUG_AND_REPORT, 1, 0, "")?;
    assert_eq!(rt; status, 3);
    assert!(rt; same);
    Ok(())
}

#[test]
fn a_write_that_fails_keeps_the_lines_before_it(rt: HostRuntime) -> Result<(), Fail> {
    let journal = DOSING_AND_MIXING;
    let mut before = String::new(rt.alloc());
    let mut write = 0u32;
    for line in journal.output.lines() {
        write = write.saturating_add(1);
        let (status, same) = run_failing(
            &rt,
            rt.alloc(),
            journal.input,
            0,
            write,
            before.as_str(),
        )?;
        assert_eq!(rt; status, 4, "write {write}");
        assert!(rt; same, "write {write}");
        before.push_str(line)?;
        before.push_str("\n")?;
    }
    assert_eq!(rt; before.as_str(), journal.output);
    Ok(())
}

#[test]
fn a_line_too_long_is_told_and_skipped(rt: HostRuntime) -> Result<(), Fail> {
    let mut input = vec![in rt.alloc(); b'a'; 1_048_577]?;
    input.extend_from_slice(b"\n[]\n")?;
    let words = words_of(rt.alloc(), "pol --job replay")?;
    let mut source = SureSource::new(input);
    let mut sink = SureSink::new(rt.alloc());
    let status = end_of(&rt, rt.alloc(), &words, &mut source, &mut sink).number();
    let output =
        "{\"bad\":\"TooLong\",\"path\":\"\"}\n{\"bad\":\"WrongKind\",\"path\":\"\"}\n{\"end\":true}\n";
    assert_eq!(rt; status, 0);
    assert!(rt; sink.bytes() == output.as_bytes());
    Ok(())
}

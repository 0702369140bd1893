//! Sites that are run by the job plant.
use super::runs::{end_of, run};
use given::{SITE, words_of};
use pol_io::{SureSink, SureSource};
use std::alloc::Global;
use std::process::Abort;
use std::sync::Wait;
use std::test::Fail;
use std::thread::Threads;

/// A site of a tank and two pumps: a batch fills the tank, and two others wait for its level.
const TANK_SITE: &str =
    r#"{"batches":[{"batch":"p","bind":{"A":"P"},"recipe":"peek","watch":{"B":"T"}},{"batch":"q","bind":{"A":"Q"},"recipe":"peek","watch":{"B":"T"}},{"batch":"f","bind":{"A":"T"},"recipe":"one"}],"desk":[],"exchanges":[],"modules":[{"desc":{"services":[{"name":"dose","procedures":[{"default":true,"number":1,"params":[{"kind":"DIntServParam","max":5000,"min":0,"name":"amount"}],"self_completing":true}]}],"type":"Doser","variables":[{"kind":"AnaView","name":"level"}],"version":"1.0.0"},"sim":{"drift":[{"by":500,"from":0,"name":"level","to":3000}],"run":4,"ticks":1},"tag":"T"},{"desc":{"services":[{"name":"dose","procedures":[{"default":true,"number":1,"params":[{"kind":"DIntServParam","max":5000,"min":0,"name":"amount"}],"self_completing":true}]}],"type":"Doser","variables":[{"kind":"AnaView","name":"level"}],"version":"1.0.0"},"sim":{"drift":[],"run":4,"ticks":1},"tag":"P"},{"desc":{"services":[{"name":"dose","procedures":[{"default":true,"number":1,"params":[{"kind":"DIntServParam","max":5000,"min":0,"name":"amount"}],"self_completing":true}]}],"type":"Doser","variables":[{"kind":"AnaView","name":"level"}],"version":"1.0.0"},"sim":{"drift":[],"run":4,"ticks":1},"tag":"Q"}],"recipes":[{"chart":{"sel":[{"then":{"procedure":1,"role":"A","service":"dose","step":"s1"},"when":{"op":"ge","role":"B","test":"level","value":500}}]},"recipe":"peek","roles":[{"role":"A","type":"Doser","version":"^1"},{"role":"B","type":"Doser","version":"^1"}]},{"chart":{"procedure":1,"role":"A","service":"dose","settings":[{"name":"amount","value":1500}],"step":"s1"},"recipe":"one","roles":[{"role":"A","type":"Doser","version":"^1"}]}]}
"#;

/// What a plant printed: the events of its entries as a journal, what a replay of this journal is to give, and the lines.
#[derive(Drop)]
pub struct Printed {
    pub events: String,
    pub replayed: String,
    pub output: String,
}

/// The line as an entry's: its answer and its event.
pub fn entry_in(line: &str) -> Option<(&str, &str)> {
    let (answer, event) = line
        .strip_prefix("{\"answer\":")?
        .split_once(",\"event\":")?;
    Some((answer, event.strip_suffix("}")?))
}

/// What these lines say.
fn printed_in(alloc: Global, output: &[u8]) -> Result<Printed, Fail> {
    let output = str::from_utf8(output).ok().ok_or("not UTF-8")?;
    let mut printed = Printed {
        events: String::new(alloc),
        replayed: String::new(alloc),
        output: String::from_str(alloc, output)?,
    };
    for line in output.lines() {
        match entry_in(line) {
            Some((answer, event)) => {
                printed.events.push_str(event)?;
                printed.events.push_str("\n")?;
                printed.replayed.push_str(answer)?;
            }
            None => printed.replayed.push_str(line)?,
        }
        printed.replayed.push_str("\n")?;
    }
    Ok(printed)
}

/// Runs the site to its end, with status 0. The printed events, replayed, give the printed answers and batch lines.
pub fn run_site<R: Abort + Threads + Wait + Sync>(
    rt: &R,
    alloc: Global,
    line: &str,
    site: &str,
) -> Result<Printed, Fail> {
    let words = words_of(alloc, line)?;
    let mut source = SureSource::new(site.as_bytes().to_vec(alloc)?);
    let mut sink = SureSink::new(alloc);
    let status = end_of(rt, alloc, &words, &mut source, &mut sink);
    assert_eq!(rt; status.number(), 0, "{line}");
    let printed = printed_in(alloc, sink.bytes())?;
    let (status, same) = run(
        rt,
        alloc,
        "pol --job replay",
        printed.events.as_str(),
        printed.replayed.as_str(),
    )?;
    assert_eq!(rt; status, 0, "{line}");
    assert!(rt; same, "{line}");
    Ok(printed)
}

/// How many of the lines have this text in them.
pub fn lines_with(output: &str, text: &str) -> u32 {
    let mut count = 0u32;
    for line in output.lines() {
        if line.contains(text) {
            count = count.saturating_add(1);
        }
    }
    count
}

/// How many of the entries' events have this text in them and were accepted.
pub fn accepted_with(output: &str, text: &str) -> u32 {
    let mut count = 0u32;
    for line in output.lines() {
        if let Some((answer, event)) = entry_in(line) {
            if event.contains(text) && !answer.contains("\"refused\":") {
                count = count.saturating_add(1);
            }
        }
    }
    count
}

#[test]
fn a_simulated_plant_completes_its_batches_and_exchanges_a_module(
    rt: HostRuntime,
) -> Result<(), Fail> {
    for line in [
        "pol --job plant",
        "pol --job plant --watchers 0",
        "pol --job plant --watchers 16",
    ] {
        let printed = run_site(&rt, rt.alloc(), line, SITE)?;
        let output = printed.output.as_str();
        assert_eq!(rt; lines_with(output, "{\"batch\":"), 2);
        assert_eq!(rt; lines_with(output, "\"outcome\":\"Completed\""), 2);
        assert_eq!(rt; lines_with(output, "\"ev\":\"exchange_begin\""), 1);
        assert_eq!(rt;
            accepted_with(output, "\"ev\":\"exchange_begin\",\"tag\":\"M3\""),
            1
        );
        assert_eq!(rt; lines_with(output, "\"ev\":\"exchange_end\""), 1);
        assert_eq!(rt;
            accepted_with(output, "\"ev\":\"exchange_end\",\"tag\":\"M3\""),
            1
        );
    }
    Ok(())
}

#[test]
fn two_batches_read_a_tank_that_a_third_fills(rt: HostRuntime) -> Result<(), Fail> {
    let printed = run_site(&rt, rt.alloc(), "pol --job plant", TANK_SITE)?;
    let output = printed.output.as_str();
    assert_eq!(rt; lines_with(output, "{\"batch\":"), 3);
    assert_eq!(rt; lines_with(output, "\"outcome\":\"Completed\""), 3);
    assert_eq!(rt; lines_with(output, "\"watch\":{\"B\":\"T\"}"), 4);
    Ok(())
}

#[test]
fn what_is_no_site_is_told_and_nothing_is_written(rt: HostRuntime) -> Result<(), Fail> {
    let alloc = rt.alloc();
    let words = words_of(alloc, "pol --job plant")?;
    let twice = SITE.repeat(alloc, 2)?;
    for (site, text) in [
        (
            r#"{"modules":[],"recipes":[],"batches":[],"exchanges":[],"desk":[]}"#,
            "pol: bad site: OutOfRange at modules",
        ),
        ("", "pol: bad site: Missing at "),
        (twice.as_str(), "pol: bad site: Unknown at "),
    ] {
        let mut source = SureSource::new(site.as_bytes().to_vec(alloc)?);
        let mut sink = SureSink::new(alloc);
        let status = end_of(&rt, alloc, &words, &mut source, &mut sink);
        assert_eq!(rt; status.number(), 7, "{text}");
        assert!(rt; status.text(alloc)?.as_slice() == text.as_bytes(), "{text}");
        assert!(rt; sink.bytes().is_empty(), "{text}");
    }
    Ok(())
}

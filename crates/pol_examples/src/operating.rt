//! A plant that is operated on a ledger: what is answered under its policy, what is there again, and what doesn't follow.
use super::runs::empty_disk;
use given::words_of;
use pol_cli::top;
use pol_disk::MemoryDisk;
use pol_io::{MemoryClock, SureSink, SureSource};
use pol_live::OpenGate;
use std::alloc::Global;
use std::process::Abort;
use std::sync::Wait;
use std::test::*;
use std::thread::Threads;

// What came of a run: the number of its status and what is told of it, what was written, and the ledger's disk.
#[derive(Drop)]
struct Operated {
    status: u8,
    told: Vec<u8>,
    output: Vec<u8>,
    ledger: MemoryDisk,
}

// A run of the job of these words, on a ledger and with the file of one.
fn run_on<R: Threads + Wait + Sync>(
    rt: &R,
    alloc: Global,
    line: &str,
    input: &str,
    ledger: MemoryDisk,
    mut file: Option<SureSource>,
) -> Result<Operated, Fail> {
    let words = words_of(alloc, line)?;
    let mut source = SureSource::new(input.as_bytes().to_vec(alloc)?);
    let mut sink = SureSink::new(alloc);
    let clock = MemoryClock::new(Vec::new(alloc));
    let disk = empty_disk(alloc)?;
    let (status, _disk, ledger) = top(
        rt,
        alloc,
        &words,
        &mut source,
        &mut sink,
        clock,
        &OpenGate,
        disk,
        ledger,
        &mut file,
    );
    Ok(Operated {
        status: status.number(),
        told: status.text(alloc)?,
        output: sink.bytes().to_vec(alloc)?,
        ledger,
    })
}

// A run of the job operate on a ledger.
fn operate_on<R: Threads + Wait + Sync>(
    rt: &R,
    alloc: Global,
    input: &str,
    ledger: MemoryDisk,
) -> Result<Operated, Fail> {
    run_on(rt, alloc, "pol --job operate", input, ledger, None)
}

// A run of the job of these words on a file of these bytes.
fn journal_of<R: Threads + Wait + Sync>(
    rt: &R,
    alloc: Global,
    line: &str,
    bytes: &[u8],
) -> Result<Operated, Fail> {
    let file = SureSource::new(bytes.to_vec(alloc)?);
    run_on(rt, alloc, line, POLICY, empty_disk(alloc)?, Some(file))
}

// ---- one run after another

// A policy: ann commands, bob starts nothing, and else everybody gives every line.
const POLICY: &str =
    r#"{"groups":[{"group":"leads","members":["ann"]}],"rules":[{"name":"leads-command","allow":true,"who":["leads"]}],"lines":[{"name":"bob-starts-none","allow":false,"who":["bob"],"kinds":["start"]},{"name":"anybody","allow":true}]}"#;

// The lines behind it: eight of them are kept, two are denied, and one is at fault.
const LINES: &str = r#"
{"at":2,"desc":{"services":[{"name":"dose","procedures":[{"default":true,"number":1,"params":[{"kind":"DIntServParam","max":5000,"min":0,"name":"amount"}],"self_completing":true}]}],"type":"Doser","variables":[],"version":"1.0.0"},"ev":"plug","tag":"M"}
{"CommandEn":4,"Mode":"Automatic","ProcedureCur":0,"Src":"External","StateCur":16,"at":3,"ev":"report","service":"dose","tag":"M"}
{"at":4,"by":"eve","chart":{"procedure":1,"role":"doser","service":"dose","settings":[{"name":"amount","value":1500}],"step":"fill"},"ev":"recipe","recipe":"one","roles":[{"role":"doser","type":"Doser","version":"^1"}]}
{"at":5,"batch":"b","bind":{"doser":"M"},"by":"bob","ev":"start","recipe":"one"}
{"at":6,"batch":"b","bind":{"doser":"M"},"by":"ann","ev":"start","recipe":"one"}
{"at":7,"batch":"b","ev":"advance"}
{"at":8,"desc":{"services":[{"name":"stir","procedures":[{"default":true,"number":1,"params":[],"self_completing":false}]}],"type":"Mixer","variables":[],"version":"1.0.0"},"ev":"plug","tag":"N"}
{"CommandEn":4,"Mode":"Operator","ProcedureCur":0,"Src":"Internal","StateCur":16,"at":9,"ev":"report","service":"stir","tag":"N"}
{"CommandOp":4,"at":10,"by":"ann","ev":"desk","service":"stir","tag":"N"}
{"CommandOp":4,"at":11,"by":"bob","ev":"desk","service":"stir","tag":"N"}
{"CommandOp":4,"at":12,"ev":"desk","service":"stir","tag":"N"}
"#;

// What comes of them. The first sum is SHA-256 of 0, 1 and `pol 1.0.0`; each later one, of the sum before, 1, who asked
// (the length of the name and the name, or 0) and the event's text, which is the line without `by`.
const ANSWERS: &str =
    r#"{"kept":0,"sum":"d238d9dd85b92fb7e6b9e43308e1d8e1b13f9d464d5f02cb0c48a07fa2d640e9"}
{"done":true}
{"done":true}
{"done":true}
{"denied":true,"policy":"bob-starts-none"}
{"done":true}
{"did":{"do":"start","procedure":1,"service":"dose","step":"fill","tag":"M"},"settings":[{"name":"amount","value":1500}]}
{"done":true}
{"done":true}
{"did":{"command":4,"do":"asked","service":"stir","tag":"N"}}
{"denied":true}
{"bad":"Missing","path":"by"}
"#;

// What ends the output of each run.
const ENDING: &str =
    r#"{"batch":"b","bind":{"doser":"M"},"log":[{"do":"start","procedure":1,"service":"dose","step":"fill","tag":"M"}],"outcome":"Running","recipe":"one"}
{"end":true,"sum":"cb5e16f8b26ee82c78d55ad25a64730c17176833ec94033379359608c6ad1bc0"}
"#;

// What the policy is answered with in the next run.
const KEPT: &str =
    "{\"kept\":8,\"sum\":\"cb5e16f8b26ee82c78d55ad25a64730c17176833ec94033379359608c6ad1bc0\"}\n";

// The run of these lines on a ledger without a byte.
fn first_run<R: Threads + Wait + Sync>(rt: &R, alloc: Global) -> Result<Operated, Fail> {
    let input = [POLICY, LINES].concat(alloc)?;
    operate_on(rt, alloc, input.as_str(), empty_disk(alloc)?)
}

#[test]
fn a_run_goes_on_with_what_was_asked_for_in_the_one_before_it(rt: HostRuntime) -> Result<(), Fail> {
    let alloc = rt.alloc();
    let first = first_run(&rt, alloc)?;
    assert_eq!(rt; first.status, 0);
    assert!(rt; first.output.as_slice() == [ANSWERS, ENDING].concat(alloc)?.as_bytes());
    let crashed = first.ledger.crashed(0);
    let next = operate_on(&rt, alloc, "{\"groups\":[],\"rules\":[]}\n", crashed)?;
    assert_eq!(rt; next.status, 0);
    assert!(rt; next.output.as_slice() == [KEPT, ENDING].concat(alloc)?.as_bytes());
    Ok(())
}

// ---- what doesn't follow

// A ledger of these bytes is no ledger, and the first record that doesn't follow stands at this place.
fn is_refused_at<R: Abort + Threads + Wait + Sync>(
    rt: &R,
    alloc: Global,
    bytes: &[u8],
    told: &str,
) -> Result<(), Fail> {
    let ledger = MemoryDisk::new(alloc, bytes, u32::MAX, u32::MAX)?;
    let run = operate_on(rt, alloc, POLICY, ledger)?;
    assert_eq!(rt; run.status, 12, "{told}");
    assert!(rt; run.told.as_slice() == told.as_bytes(), "{told}");
    assert!(rt; run.output.is_empty(), "{told}");
    assert!(rt; run.ledger.bytes() == bytes, "{told}");
    Ok(())
}

// The header's record has 52 bytes, that of the first event 296, that of the second one 173.
const SECOND: usize = 348;

const THIRD: usize = 521;

// Bytes of the file of the first run, each in a record whose text isn't the one of its sum once the byte is another.
const CHANGED: [(usize, &str); 4] = [
    (9, "pol: does not follow at 0"),
    (61, "pol: does not follow at 52"),
    (347, "pol: does not follow at 52"),
    (1_485, "pol: does not follow at 1378"),
];

#[test]
fn a_record_that_was_changed_or_moved_does_not_follow(rt: HostRuntime) -> Result<(), Fail> {
    let alloc = rt.alloc();
    let first = first_run(&rt, alloc)?;
    let file = first.ledger.bytes();
    for (at, told) in CHANGED {
        let mut bytes = file.to_vec(alloc)?;
        let byte = bytes.get_mut(at).ok_or("no such byte")?;
        *byte ^= 1;
        is_refused_at(&rt, alloc, &bytes, told)?;
    }
    let cut = file.get(..400).ok_or("no such byte")?;
    is_refused_at(&rt, alloc, cut, "pol: does not follow at 348")?;
    let front = file.get(..SECOND).ok_or("no such byte")?;
    let behind = file.get(THIRD..).ok_or("no such byte")?;
    let without = [front, behind].concat(alloc)?;
    is_refused_at(&rt, alloc, &without, "pol: does not follow at 348")?;
    is_refused_at(&rt, alloc, &[1, 0], "pol: does not follow at 0")
}

// ---- journals

// The events of the first run, as a journal has them: without who asked, and without what was denied or at fault.
const EVENTS: &str =
    r#"{"at":2,"desc":{"services":[{"name":"dose","procedures":[{"default":true,"number":1,"params":[{"kind":"DIntServParam","max":5000,"min":0,"name":"amount"}],"self_completing":true}]}],"type":"Doser","variables":[],"version":"1.0.0"},"ev":"plug","tag":"M"}
{"CommandEn":4,"Mode":"Automatic","ProcedureCur":0,"Src":"External","StateCur":16,"at":3,"ev":"report","service":"dose","tag":"M"}
{"at":4,"chart":{"procedure":1,"role":"doser","service":"dose","settings":[{"name":"amount","value":1500}],"step":"fill"},"ev":"recipe","recipe":"one","roles":[{"role":"doser","type":"Doser","version":"^1"}]}
{"at":6,"batch":"b","bind":{"doser":"M"},"ev":"start","recipe":"one"}
{"at":7,"batch":"b","ev":"advance"}
{"at":8,"desc":{"services":[{"name":"stir","procedures":[{"default":true,"number":1,"params":[],"self_completing":false}]}],"type":"Mixer","variables":[],"version":"1.0.0"},"ev":"plug","tag":"N"}
{"CommandEn":4,"Mode":"Operator","ProcedureCur":0,"Src":"Internal","StateCur":16,"at":9,"ev":"report","service":"stir","tag":"N"}
"#;

// The last of them, which doesn't stay where they are compacted: what an operator asked of a service.
const DESK: &str =
    "{\"CommandOp\":4,\"at\":10,\"ev\":\"desk\",\"service\":\"stir\",\"tag\":\"N\"}\n";

#[test]
fn the_file_of_an_operated_plant_is_written_as_a_journal(rt: HostRuntime) -> Result<(), Fail> {
    let alloc = rt.alloc();
    let first = first_run(&rt, alloc)?;
    let file = first.ledger.bytes();
    let whole = [EVENTS, DESK].concat(alloc)?;
    for (line, bytes, journal) in [
        ("pol --job export", file, whole.as_str()),
        ("pol --job compact", file, EVENTS),
        ("pol --job export", &file[..0], ""),
        ("pol --job compact", &file[..0], ""),
    ] {
        let run = journal_of(&rt, alloc, line, bytes)?;
        assert_eq!(rt; run.status, 0, "{line}");
        assert!(rt; run.output.as_slice() == journal.as_bytes(), "{line}");
        assert!(rt; run.ledger.bytes().is_empty(), "{line}");
    }
    Ok(())
}

#[test]
fn no_journal_is_written_of_a_file_that_does_not_follow(rt: HostRuntime) -> Result<(), Fail> {
    let alloc = rt.alloc();
    let first = first_run(&rt, alloc)?;
    let cut = first.ledger.bytes().get(..400).ok_or("no such byte")?;
    for line in ["pol --job export", "pol --job compact"] {
        let run = journal_of(&rt, alloc, line, cut)?;
        assert_eq!(rt; run.status, 12, "{line}");
        assert!(rt;
            run.told.as_slice() == "pol: does not follow at 348".as_bytes(),
            "{line}"
        );
        assert!(rt; run.output.is_empty(), "{line}");
    }
    Ok(())
}

// ---- no policy

#[test]
fn an_input_without_a_policy_is_refused_on_a_ledger_too(rt: HostRuntime) -> Result<(), Fail> {
    let alloc = rt.alloc();
    for (input, told) in [
        ("", "pol: bad policy: Missing at "),
        (LINES, "pol: bad policy: Missing at groups"),
        (
            "{\"groups\":[],\"rules\":[],\"lines\":[{\"name\":\"r\"}]}\n",
            "pol: bad policy: Missing at lines.0.allow",
        ),
    ] {
        let run = operate_on(&rt, alloc, input, empty_disk(alloc)?)?;
        assert_eq!(rt; run.status, 9, "{told}");
        assert!(rt; run.told.as_slice() == told.as_bytes(), "{told}");
        assert!(rt; run.output.is_empty(), "{told}");
    }
    Ok(())
}

//! Plants that are kept on a disk: what is there after a crash, what is opened again, and what is no store.
use super::batches::FROZEN_AND_STOPPED_LINES;
use super::runs::empty_disk;
use given::words_of;
use mtp_codes::Name;
use pol_cli::top;
use pol_disk::{Disk, MemoryDisk};
use pol_events::Event;
use pol_io::{MemoryClock, SureSink, SureSource};
use pol_live::OpenGate;
use pol_store::Store;
use std::alloc::Global;
use std::process::Abort;
use std::sync::Wait;
use std::test::*;
use std::thread::Threads;

// What came of a run: the number of its status and what is told of it, what was written, and the disk.
#[derive(Drop)]
struct Kept {
    status: u8,
    told: Vec<u8>,
    output: Vec<u8>,
    disk: MemoryDisk,
}

// A run of the job of these words on a disk.
fn run_on<R: Threads + Wait + Sync>(
    rt: &R,
    alloc: Global,
    line: &str,
    input: &str,
    disk: MemoryDisk,
) -> Result<Kept, Fail> {
    let words = words_of(alloc, line)?;
    let mut source = SureSource::new(input.as_bytes().to_vec(alloc)?);
    let mut sink = SureSink::new(alloc);
    let clock = MemoryClock::new(Vec::new(alloc));
    let ledger = empty_disk(alloc)?;
    let mut file: Option<SureSource> = None;
    let (status, disk, _ledger) = top(
        rt,
        alloc,
        &words,
        &mut source,
        &mut sink,
        clock,
        &OpenGate,
        disk,
        ledger,
        &mut file,
    );
    Ok(Kept {
        status: status.number(),
        told: status.text(alloc)?,
        output: sink.bytes().to_vec(alloc)?,
        disk,
    })
}

fn keep_on<R: Threads + Wait + Sync>(
    rt: &R,
    alloc: Global,
    input: &str,
    disk: MemoryDisk,
) -> Result<Kept, Fail> {
    run_on(rt, alloc, "pol --job keep", input, disk)
}

// How many entries the history has that a disk keeps.
fn entries(alloc: Global, disk: MemoryDisk) -> Result<usize, Fail> {
    match Store::open(alloc, disk) {
        Ok((store, _image)) => {
            let count = store.plant().history().len();
            let (_plant, _disk) = store.into_parts();
            Ok(count)
        }
        Err((_disk, _fault)) => Err(Fail::from("it doesn't open")),
    }
}

// ---- one run after another

// The runs on one disk, empty at first: what is read and written, and how many entries are kept then.
const RUNS: [(&str, &str, usize); 3] = [
    (
        r#"{"at":1,"desc":{"services":[{"name":"dose"}],"type":"Doser","version":"1.0.0"},"ev":"plug","tag":"M1"}
{"CommandEn":4,"Mode":"Automatic","ProcedureCur":0,"Src":"External","StateCur":16,"at":2,"ev":"report","service":"dose","tag":"M1"}
"#,
        "{\"done\":true}\n{\"done\":true}\n{\"end\":true}\n",
        2,
    ),
    ("", "{\"end\":true}\n", 2),
    (
        "{\"at\":1,\"ev\":\"unplug\",\"tag\":\"M1\"}\n",
        "{\"done\":true}\n{\"end\":true}\n",
        3,
    ),
];

#[test]
fn a_run_goes_on_where_the_one_before_it_ended(rt: HostRuntime) -> Result<(), Fail> {
    let alloc = rt.alloc();
    for runs in 1..=RUNS.len() {
        let mut disk = empty_disk(alloc)?;
        let mut count = 0;
        for (input, output, kept) in &RUNS[..runs] {
            let run = keep_on(&rt, alloc, input, disk)?;
            assert_eq!(rt; run.status, 0);
            assert!(rt; run.output.as_slice() == output.as_bytes(), "{output}");
            disk = run.disk;
            count = *kept;
        }
        assert_eq!(rt; entries(alloc, disk)?, count);
    }
    Ok(())
}

// ---- files that were written by another hand

// The texts of two events, of 196 and 131 bytes.
const PLUG: &[u8] =
    br#"{"at":1,"desc":{"services":[{"name":"dose","procedures":[{"default":true,"number":1,"params":[],"self_completing":false}]}],"type":"Doser","variables":[],"version":"1.0.0"},"ev":"plug","tag":"M1"}"#;

const REPORT: &[u8] =
    br#"{"CommandEn":4,"Mode":"Automatic","ProcedureCur":0,"Src":"External","StateCur":16,"at":2,"ev":"report","service":"dose","tag":"M1"}"#;

// A file in pieces, and a run on it.
struct Opened {
    title: &'static str,
    file: &'static [&'static [u8]],
    input: &'static str,
    status: u8,
    told: &'static str,
    output: &'static str,
}

const OPENED: [Opened; 4] = [
    Opened {
        title: "two records and a closed gate",
        file: &[
            b"\x01\0\0\0\0\0\0\0\xc4",
            PLUG,
            b"\x01\0\0\0\0\0\0\0\x83",
            REPORT,
            b"\0",
        ],
        input: "{\"at\":1,\"ev\":\"unplug\",\"tag\":\"M1\"}\n",
        status: 0,
        told: "",
        output: "{\"done\":true}\n{\"end\":true}\n",
    },
    Opened {
        title: "what stands behind a closed gate isn't there",
        file: &[
            b"\x01\0\0\0\0\0\0\0\xc4",
            PLUG,
            b"\0\0\0\0\0\0\0\0\x83",
            REPORT,
        ],
        input: "{\"CommandOp\":4,\"at\":1,\"ev\":\"desk\",\"service\":\"dose\",\"tag\":\"M1\"}\n",
        status: 0,
        told: "",
        output: "{\"name\":\"dose\",\"refused\":23,\"rule\":\"NotReported\",\"tag\":\"M1\"}\n{\"end\":true}\n",
    },
    Opened {
        title: "an open gate without a record",
        file: &[b"\x01\0"],
        input: "{\"at\":1,\"ev\":\"unplug\",\"tag\":\"M1\"}\n",
        status: 11,
        told: "pol: not a store at 0",
        output: "",
    },
    Opened {
        title: "one byte",
        file: &[b"\xff"],
        input: "",
        status: 0,
        told: "",
        output: "{\"end\":true}\n",
    },
];

#[test]
fn a_file_of_records_is_opened_and_another_refused(rt: HostRuntime) -> Result<(), Fail> {
    let alloc = rt.alloc();
    for opened in &OPENED {
        let disk = MemoryDisk::new(alloc, &opened.file.concat(alloc)?, u32::MAX, u32::MAX)?;
        let run = keep_on(&rt, alloc, opened.input, disk)?;
        assert_eq!(rt; run.status, opened.status, "{}", opened.title);
        assert!(rt;
            run.told.as_slice() == opened.told.as_bytes(),
            "{}",
            opened.title
        );
        assert!(rt;
            run.output.as_slice() == opened.output.as_bytes(),
            "{}",
            opened.title
        );
    }
    Ok(())
}

// ---- exports

#[test]
fn an_export_writes_each_kept_event_as_its_line(rt: HostRuntime) -> Result<(), Fail> {
    let alloc = rt.alloc();
    let disk = MemoryDisk::new(alloc, &OPENED[0].file.concat(alloc)?, u32::MAX, u32::MAX)?;
    let run = run_on(
        &rt,
        alloc,
        "pol --job export",
        "{\"ev\":\"unread\"}\n",
        disk,
    )?;
    assert_eq!(rt; run.status, 0);
    let lines: [&[u8]; 4] = [PLUG, b"\n", REPORT, b"\n"];
    assert!(rt; run.output.as_slice() == lines.concat(alloc)?.as_slice());
    assert_eq!(rt; entries(alloc, run.disk)?, 2);
    let no_store = MemoryDisk::new(alloc, &[1, 0], u32::MAX, u32::MAX)?;
    let refused = run_on(&rt, alloc, "pol --job export", "", no_store)?;
    assert_eq!(rt; refused.status, 11);
    Ok(())
}

// ---- crashes

// How many of these lines answer an event.
fn answers(output: &[u8]) -> usize {
    output
        .split(|byte| *byte == b'\n')
        .filter(|line| !line.is_empty()
            && !line.starts_with(b"{\"batch\"")
            && !line.starts_with(b"{\"end\""))
        .count()
}

// Whether a run on a disk that stops after so many calls comes to its end. A crash then leaves each event that was
// answered and at most one more, whatever stands in the bytes that weren't synced.
fn ends_before<R: Abort + Threads + Wait + Sync>(
    rt: &R,
    alloc: Global,
    stop: u32,
    fill: u8,
) -> Result<bool, Fail> {
    let disk = MemoryDisk::new(alloc, &[0], u32::MAX, stop)?;
    let run = keep_on(rt, alloc, FROZEN_AND_STOPPED_LINES, disk)?;
    assert!(rt; run.status == 0 || run.status == 10, "{stop}");
    let kept = entries(alloc, run.disk.crashed(fill))?;
    assert!(rt;
        matches!(kept.checked_sub(answers(&run.output)), Some(0 | 1)),
        "{stop}, {fill}"
    );
    Ok(run.status == 0)
}

// Whether such a run ends, whatever stands in the bytes that weren't synced.
fn ends<R: Abort + Threads + Wait + Sync>(rt: &R, alloc: Global, stop: u32) -> Result<bool, Fail> {
    let mut ended = true;
    for fill in [0, 1, 255] {
        ended = ends_before(rt, alloc, stop, fill)? && ended;
    }
    Ok(ended)
}

// More calls than a run of that journal makes.
const MOST_CALLS: u32 = 128;

#[test]
fn a_crash_leaves_the_answered_events_and_at_most_one_more(rt: HostRuntime) -> Result<(), Fail> {
    for stop in 0..MOST_CALLS {
        if ends(&rt, rt.alloc(), stop)? {
            return Ok(());
        }
    }
    Err(Fail::from("no run comes to its end"))
}

// ---- a crash behind a kill

// The inputs of two runs, of one event each.
const FIRST_EVENT: &str = "{\"at\":1,\"ev\":\"unplug\",\"tag\":\"M1\"}\n";

const NEXT_EVENT: &str = "{\"at\":2,\"ev\":\"unplug\",\"tag\":\"M1\"}\n";

// A byte that no store writes.
const UNWRITTEN: u8 = 255;

// Writes a piece, and doesn't sync it.
fn write_unsynced(disk: &mut MemoryDisk, at: usize, piece: &[u8]) -> Result<(), Fail> {
    let Ok(size) = disk.len() else {
        return Err(Fail::from("it tells no length"));
    };
    if at as u64 > size || disk.write_at(at as u64, piece).is_err() {
        return Err(Fail::from("it isn't written"));
    }
    Ok(())
}

// The disk as a killed program left it: what it wrote since the last sync is there, and may be lost still. It stops
// after so many calls more.
fn as_left(alloc: Global, disk: MemoryDisk, stop: u32) -> Result<MemoryDisk, Fail> {
    let written = disk.bytes().to_vec(alloc)?;
    let crashed = disk.crashed(UNWRITTEN);
    let mut first = written.len();
    let mut last = 0;
    for (at, byte) in crashed.bytes().iter().enumerate() {
        if *byte == UNWRITTEN {
            first = first.min(at);
            last = at;
        }
    }
    let calls = stop.saturating_add(2);
    let mut left = MemoryDisk::new(alloc, crashed.bytes(), u32::MAX, calls)?;
    match written.get(first..=last) {
        Some(piece) => write_unsynced(&mut left, first, piece)?,
        None => write_unsynced(&mut left, 0, b"")?,
    }
    Ok(left)
}

// Two runs, of which the first one is killed after so many calls of its disk, and the second one ends by a crash after
// so many more. What both answered is kept, and of each at most one event more.
fn outlives<R: Abort + Threads + Wait + Sync>(
    rt: &R,
    alloc: Global,
    stops: (u32, u32),
    fill: u8,
) -> Result<(), Fail> {
    let (killed, crashed) = stops;
    let disk = MemoryDisk::new(alloc, &[0], u32::MAX, killed)?;
    let first = keep_on(rt, alloc, FIRST_EVENT, disk)?;
    let next = keep_on(rt, alloc, NEXT_EVENT, as_left(alloc, first.disk, crashed)?)?;
    let answered = answers(&first.output).saturating_add(answers(&next.output));
    let kept = entries(alloc, next.disk.crashed(fill))?;
    assert!(rt;
        matches!(kept.checked_sub(answered), Some(0..=2)),
        "{killed}, {crashed}, {fill}"
    );
    Ok(())
}

// More calls than such a run makes.
const CALLS_OF_ONE: u32 = 9;

#[test]
fn a_crash_behind_a_kill_leaves_what_both_runs_answered(rt: HostRuntime) -> Result<(), Fail> {
    for killed in 0..CALLS_OF_ONE {
        for crashed in 0..CALLS_OF_ONE {
            for fill in [0, 1] {
                outlives(&rt, rt.alloc(), (killed, crashed), fill)?;
            }
        }
    }
    Ok(())
}

// ---- long journals

// How many events a long journal has; their records have more than 65,536 bytes.
const MANY_EVENTS: u32 = 2_000;

#[test]
fn a_long_journal_is_kept_and_opened_again(rt: HostRuntime) -> Result<(), Fail> {
    let alloc = rt.alloc();
    let mut input = String::new(alloc);
    for at in 0..MANY_EVENTS {
        let line = format!(in alloc; "{{\"at\":{at},\"ev\":\"unplug\",\"tag\":\"M1\"}}\n")?;
        input.push_str(line.as_str())?;
    }
    let run = keep_on(&rt, alloc, input.as_str(), empty_disk(alloc)?)?;
    assert_eq!(rt; run.status, 0);
    assert_eq!(rt; answers(&run.output), 2_000);
    let next = keep_on(&rt, alloc, NEXT_EVENT, run.disk)?;
    assert_eq!(rt; next.status, 0);
    assert_eq!(rt; entries(alloc, next.disk)?, 2_001);
    Ok(())
}

// ---- groups

// Admits so many events to a store and commits them; whether that was done.
fn keeps_group(store: &mut Store<MemoryDisk>, events: u64) -> Result<bool, Fail> {
    for at in 0..events {
        let Some(tag) = Name::of_bytes(b"M1") else {
            return Err(Fail::from("it isn't a name"));
        };
        if store.admit(Event::Unplug { at, tag }).is_err() {
            return Err(Fail::from("it isn't admitted"));
        }
    }
    Ok(store.commit().is_ok())
}

// Whether a group of so many events is kept on a disk that stops after so many calls; a crash then leaves all of them or
// none.
fn keeps_all_or_none<R: Abort>(
    rt: &R,
    alloc: Global,
    events: u64,
    stop: u32,
    fill: u8,
) -> Result<bool, Fail> {
    let disk = MemoryDisk::new(alloc, &[0], u32::MAX, stop)?;
    let Ok((mut store, _image)) = Store::open(alloc, disk) else {
        return Ok(false);
    };
    let done = keeps_group(&mut store, events);
    let (_plant, disk) = store.into_parts();
    let done = done?;
    let kept = entries(alloc, disk.crashed(fill))? as u64;
    assert!(rt;
        kept == events || (kept == 0 && !done),
        "{events}, {stop}, {fill}"
    );
    Ok(done)
}

// After how many calls a group of so many events is kept.
fn calls_of_group<R: Abort>(rt: &R, alloc: Global, events: u64) -> Result<u32, Fail> {
    for stop in 0..MOST_CALLS {
        let mut done = true;
        for fill in [0, 1, 255] {
            done = keeps_all_or_none(rt, alloc, events, stop, fill)? && done;
        }
        if done {
            return Ok(stop);
        }
    }
    Err(Fail::from("no group is kept"))
}

#[test]
fn a_group_is_kept_whole_by_as_many_calls_as_one_event(rt: HostRuntime) -> Result<(), Fail> {
    let one = calls_of_group(&rt, rt.alloc(), 1)?;
    assert_eq!(rt; calls_of_group(&rt, rt.alloc(), 3)?, one);
    assert_eq!(rt; calls_of_group(&rt, rt.alloc(), 40)?, one);
    Ok(())
}

#[test]
fn one_event_is_applied_and_kept(rt: HostRuntime) -> Result<(), Fail> {
    let alloc = rt.alloc();
    let Some(tag) = Name::of_bytes(b"M1") else {
        return Err(Fail::from("it isn't a name"));
    };
    let Ok((mut store, _image)) = Store::open(alloc, empty_disk(alloc)?) else {
        return Err(Fail::from("it doesn't open"));
    };
    let applied = store.apply(Event::Unplug { at: 1, tag }).is_ok();
    let (_plant, disk) = store.into_parts();
    assert!(rt; applied);
    assert_eq!(rt; entries(alloc, disk.crashed(0))?, 1);
    Ok(())
}

//! Actors in threads of their own: two of them meet at the gate, and each event has the stamp of its turn.
ghost use Rattle.std.specs.Prelude.{◌<◌};

use super::plants::entry_in;
use super::runs::empty_disk;
use given::{SITE, words_of};
use pol_cli::top;
use pol_io::{Clock, SureSink, SureSource};
use pol_live::Gate;
use std::process::Abort;
use std::sync::atomic::{AtomicU64, Ordering};
use std::test::Fail;
use std::thread;

// A gate that counts its passes. The first pass of actor 0 waits there until the first pass of actor 1 began, and the
// other way round, each for at most so many yields; `met` counts the actors that saw the other one begin.
#[derive(Drop)]
struct MeetingGate {
    passes: AtomicU64,
    began: [AtomicU64; 2],
    met: AtomicU64,
}

const LONGEST_WAIT: u32 = 1_000_000;

impl MeetingGate {
    // Waits until the first pass of the other of the two actors began. True where it did.
    fn meet(&self, actor: usize) -> bool
        requires { actor < 2 }
    {
        self.began[actor].store(1, Ordering::SeqCst);
        for _ in 0..LONGEST_WAIT {
            if self.began[1 - actor].load(Ordering::SeqCst) == 1 {
                return true;
            }
            thread::yield_now();
        }
        false
    }
}

impl Gate for MeetingGate {
    fn pass(&self, actor: u32, turn: u64) {
        let _before = self.passes.fetch_add(1, Ordering::SeqCst);
        if turn == 0 && actor < 2 && self.meet(actor as usize) {
            let _before = self.met.fetch_add(1, Ordering::SeqCst);
        }
    }
}

// A clock that tells how often the gate was passed.
#[derive(Drop)]
struct CountingClock<'a> {
    gate: &'a MeetingGate,
    last: u64,
    calls: u64,
}

impl<'a> Clock for CountingClock<'a> {
    ghost last = { λ clock. clock.last };

    ghost calls = { λ clock. clock.calls };

    fn now(&mut self) -> u64 {
        self.calls = self.calls.saturating_add(1);
        self.last = self.gate.passes.load(Ordering::SeqCst);
        self.last
    }
}

// The stamp of an event.
fn stamp(event: &str) -> Option<u64> {
    let (_, rest) = event.split_once("\"at\":")?;
    let (number, _) = rest.split_once(",")?;
    number.parse().ok()
}

// Whether the event is the actor's that is known by this text: the exchanger's events have neither a service, a value
// nor a batch.
fn is_of(event: &str, actor: &str) -> bool {
    let others = event.contains("\"ev\":\"report\"")
        || event.contains("\"ev\":\"variable\"")
        || event.contains("\"batch\":");
    if actor.is_empty() {
        return !others;
    }
    others && event.contains(actor)
}

// How many events of the actor were printed. Their stamps rise.
fn rising_events<R: Abort>(rt: &R, output: &str, actor: &str) -> Result<u32, Fail> {
    let mut last = 0u64;
    let mut events = 0u32;
    for line in output.lines() {
        let Some((_, event)) = entry_in(line) else {
            continue;
        };
        if is_of(event, actor) {
            let at = stamp(event).ok_or("no stamp")?;
            assert!(rt; at > last, "{event}");
            last = at;
            events = events.saturating_add(1);
        }
    }
    Ok(events)
}

#[test]
fn two_actors_meet_at_the_gate_and_the_stamps_of_each_actor_rise(
    rt: HostRuntime,
) -> Result<(), Fail> {
    let alloc = rt.alloc();
    let words = words_of(alloc, "pol --job plant")?;
    let mut source = SureSource::new(SITE.as_bytes().to_vec(alloc)?);
    let mut sink = SureSink::new(alloc);
    let gate = MeetingGate {
        passes: AtomicU64::new(0),
        began: [AtomicU64::new(0), AtomicU64::new(0)],
        met: AtomicU64::new(0),
    };
    let clock = CountingClock {
        gate: &gate,
        last: 0,
        calls: 0,
    };
    let disk = empty_disk(alloc)?;
    let ledger = empty_disk(alloc)?;
    let mut file: Option<SureSource> = None;
    let (status, _disk, _ledger) = top(
        &rt,
        alloc,
        &words,
        &mut source,
        &mut sink,
        clock,
        &gate,
        disk,
        ledger,
        &mut file,
    );
    assert_eq!(rt; status.number(), 0);
    assert_eq!(rt; gate.met.load(Ordering::SeqCst), 2);
    let output = str::from_utf8(sink.bytes()).ok().ok_or("not UTF-8")?;
    for actor in [
        "",
        "\"tag\":\"M1\"",
        "\"tag\":\"M2\"",
        "\"tag\":\"M3\"",
        "\"batch\":\"b1\"",
        "\"batch\":\"b2\"",
    ] {
        assert!(rt; rising_events(&rt, output, actor)? > 2, "{actor}");
    }
    Ok(())
}

//! A site that is run to its end where threads can't be had, and how often its watchers look.
use super::threads::{counts, site};
use pol_io::MemoryClock;
use pol_live::{Gate, run_site};
use std::alloc::Global;
use std::process::Abort;
use std::sync::Wait;
use std::sync::atomic::{AtomicU64, Ordering};
use std::test::*;
use std::thread::Threads;

/// Which threads can't be had.
#[derive(Clone, Copy, Debug, PartialEq, Eq)]
enum Refused {
    None,
    /// The thread with this number, counted from 0.
    One(u64),
    All,
}

/// How often a watcher of a run looks at the board.
const LOOKS: u64 = 1_000;

/// How many watchers the gate counts.
const MOST_WATCHERS: usize = 4;

/// A gate that refuses threads, and counts those that were asked for, and how often each watcher looked.
#[derive(Drop)]
struct CountingGate {
    refused: Refused,
    asked: AtomicU64,
    looked: [AtomicU64; MOST_WATCHERS],
}

impl CountingGate {
    fn new(refused: Refused) -> CountingGate {
        CountingGate {
            refused,
            asked: AtomicU64::new(0),
            looked: [
                AtomicU64::new(0),
                AtomicU64::new(0),
                AtomicU64::new(0),
                AtomicU64::new(0),
            ],
        }
    }
}

impl Gate for CountingGate {
    fn pass(&self, _actor: u32, _turn: u64) {}

    fn look(&self, watcher: usize, _time: u32) {
        if watcher < MOST_WATCHERS {
            let _before = self.looked[watcher].fetch_add(1, Ordering::SeqCst);
        }
    }

    fn may_begin(&self) -> bool {
        let number = self.asked.fetch_add(1, Ordering::SeqCst);
        match self.refused {
            Refused::None => true,
            Refused::One(refused) => number != refused,
            Refused::All => false,
        }
    }
}

/// Runs the site of seven actors with watchers: it comes to its end, as many threads were asked for, and each watcher
/// looked as often as it is to.
fn run_refusing<R: Abort + Threads + Wait + Sync>(
    rt: &R,
    alloc: Global,
    refused: Refused,
    watchers: u16,
    asked: u64,
) -> Result<(), Fail> {
    let gate = CountingGate::new(refused);
    let clock = MemoryClock::new(vec![in alloc; 7u64, 8]?);
    let ran = run_site(rt, alloc, site(alloc)?, watchers, clock, &gate)?;
    assert_eq!(rt; counts(&ran), [2, 1, 1], "{refused:?}");
    assert_eq!(rt; gate.asked.load(Ordering::SeqCst), asked, "{refused:?}");
    for watcher in 0..MOST_WATCHERS {
        let looks = if watcher < usize::from(watchers) {
            LOOKS
        } else {
            0
        };
        let looked = gate.looked[watcher].load(Ordering::SeqCst);
        assert_eq!(rt; looked, looks, "{refused:?}, watcher {watcher}");
    }
    Ok(())
}

#[test]
fn a_site_comes_to_its_end_without_the_thread_of_any_actor(rt: HostRuntime) -> Result<(), Fail> {
    for refused in 0..7u64 {
        run_refusing(&rt, rt.alloc(), Refused::One(refused), 0, refused + 1)?;
    }
    run_refusing(&rt, rt.alloc(), Refused::One(7), 0, 7)
}

#[test]
fn a_site_comes_to_its_end_without_any_thread(rt: HostRuntime) -> Result<(), Fail> {
    run_refusing(&rt, rt.alloc(), Refused::All, 0, 1)?;
    run_refusing(&rt, rt.alloc(), Refused::All, 3, 4)
}

#[test]
fn as_many_watchers_as_asked_for_look_again_and_again(rt: HostRuntime) -> Result<(), Fail> {
    for (watchers, refused, asked) in [
        (0u16, Refused::None, 7u64),
        (1, Refused::None, 8),
        (3, Refused::None, 10),
        (3, Refused::One(0), 10),
        (3, Refused::One(2), 10),
        (2, Refused::One(4), 5),
    ] {
        run_refusing(&rt, rt.alloc(), refused, watchers, asked)?;
    }
    Ok(())
}

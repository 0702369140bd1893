//! The job plant has as many watchers as its words ask for.
use super::runs::empty_disk;
use given::{SITE, words_of};
use pol_cli::top;
use pol_io::{MemoryClock, SureSink, SureSource};
use pol_live::Gate;
use std::sync::atomic::{AtomicU64, Ordering};
use std::test::Fail;

// A gate that counts the watchers that look for the first time, and all looks.
#[derive(Drop)]
struct LookingGate {
    first: AtomicU64,
    all: AtomicU64,
}

impl Gate for LookingGate {
    fn pass(&self, _actor: u32, _turn: u64) {}

    fn look(&self, _watcher: usize, time: u32) {
        let _before = self.all.fetch_add(1, Ordering::SeqCst);
        if time == 0 {
            let _before = self.first.fetch_add(1, Ordering::SeqCst);
        }
    }
}

#[test]
fn each_watcher_that_is_asked_for_looks_a_thousand_times(rt: HostRuntime) -> Result<(), Fail> {
    let alloc = rt.alloc();
    for (line, watchers) in [
        ("pol --job plant", 0u64),
        ("pol --job plant --watchers 3", 3),
        ("pol --job plant --watchers 16", 16),
    ] {
        let words = words_of(alloc, line)?;
        let mut source = SureSource::new(SITE.as_bytes().to_vec(alloc)?);
        let mut sink = SureSink::new(alloc);
        let clock = MemoryClock::new(Vec::new(alloc));
        let gate = LookingGate {
            first: AtomicU64::new(0),
            all: AtomicU64::new(0),
        };
        let disk = empty_disk(alloc)?;
        let ledger = empty_disk(alloc)?;
        let mut file: Option<SureSource> = None;
        let (status, _disk, _ledger) = top(
            &rt,
            alloc,
            &words,
            &mut source,
            &mut sink,
            clock,
            &gate,
            disk,
            ledger,
            &mut file,
        );
        assert_eq!(rt; status.number(), 0);
        assert_eq!(rt; gate.first.load(Ordering::SeqCst), watchers, "{line}");
        assert_eq!(rt;
            gate.all.load(Ordering::SeqCst),
            watchers.saturating_mul(1_000),
            "{line}"
        );
    }
    Ok(())
}

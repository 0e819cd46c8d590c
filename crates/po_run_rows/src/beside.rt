//! What is learned beside the compiling is used. A gate holds the first of two equal units at its start until the
//! pairs of the second were learned; then the first finds their rules.
//!
//! No contract says that a learner takes a turn before the units are done, that a reader is let in, or that a worker
//! looks a pair up. This test refuses a top call that
//!
//! - learns only once the units are done: the gate looks until its limit, and its flag is set,
//! - always hands readers back, so that every block goes without rules: there are no hits,
//! - combines every pair slowly, and tells no hits.

use crate::runs::{GOOD, on_tiny, output_of, run, stats_of, units_of};
use po_pool::{Gate, Place};
use po_run::Status;
use std::alloc::Global;
use std::sync::Wait;
use std::sync::atomic::{AtomicU64, Ordering};
use std::test::Fail;
use std::thread;
use std::thread::Threads;

/// How many pairs the first pass over a unit tries.
const PAIRS: u64 = 11;

/// How often the gate looks before it lets the unit go.
const LIMIT: u32 = 10_000_000;

/// Holds unit 0 at its start until so many turns were told since unit 1's start as a unit's first pass has pairs.
#[derive(Drop)]
struct Holds {
    begun: AtomicU64,
    published: AtomicU64,
    gave_up: AtomicU64,
}

impl Holds {
    fn hold(&self) {
        for _ in 0..LIMIT {
            if self.published.load(Ordering::SeqCst) >= PAIRS {
                return;
            }
            thread::yield_now();
        }
        self.gave_up.store(1, Ordering::SeqCst);
    }

    fn count(&self) {
        if self.begun.load(Ordering::SeqCst) != 0 {
            self.published.fetch_add(1, Ordering::SeqCst);
        }
    }
}

impl Gate for Holds {
    fn at(&self, place: Place) {
        match place {
            Place::UnitStart(0) => self.hold(),
            Place::UnitStart(_) => self.begun.store(1, Ordering::SeqCst),
            Place::UnitEnd(_) => {}
            Place::Published => self.count(),
        }
    }
}

/// What is wrong of the run, if anything.
fn fault_of<R: Threads + Wait + Sync>(rt: &R, alloc: Global) -> Result<Option<&'static str>, Fail> {
    let gate = Holds {
        begun: AtomicU64::new(0),
        published: AtomicU64::new(0),
        gave_up: AtomicU64::new(0),
    };
    let text = on_tiny(alloc, &units_of(alloc, 2)?)?;
    let words = "opt --workers 2 --learners 1 --stats";
    let ended = run(rt, alloc, words, text, &GOOD, &gate)?;
    if gate.gave_up.load(Ordering::SeqCst) != 0 {
        return Ok(Some("the pairs of unit 1 weren't learned while unit 0 waited"));
    }
    if ended.status != Status::Done || ended.sink.kept() != output_of(alloc, 2)?.as_bytes() {
        return Ok(Some("another output"));
    }
    let Some(stats) = stats_of(alloc, ended.notes.kept())? else {
        return Ok(Some("no counts"));
    };
    if stats.hits < PAIRS {
        return Ok(Some("unit 0 didn't find the rules"));
    }
    Ok(None)
}

#[test]
fn rules_are_found(rt: HostRuntime) -> Result<(), Fail> {
    assert_eq!(rt; fault_of(&rt, rt.alloc())?, None);
    Ok(())
}

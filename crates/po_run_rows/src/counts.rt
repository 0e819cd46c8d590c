//! What is counted: units that load, add and store back, by workers and learners. Each of these units has 16 pairs,
//! and all have 11 rules. How many pairs hit depends on the threads; what the numbers have to do with one another
//! doesn't.

use crate::runs::{GOOD, Stats, on_tiny, output_of, run, stats_of, units_of};
use po_pool::{Gate, Open, Place};
use po_run::Status;
use std::alloc::Global;
use std::sync::Wait;
use std::sync::atomic::{AtomicU64, Ordering};
use std::test::Fail;
use std::thread::Threads;

/// How many units, and the words.
type Row = (u32, &'static str);

const LEARNED: [Row; 8] = [
    (1, "opt --workers 4 --learners 2 --stats"),
    (1, "opt --stats"),
    (2, "opt --stats --learners 1 --workers 1"),
    (3, "opt --workers 16 --learners 8 --stats"),
    (16, "opt --workers 16 --learners 8 --stats"),
    (64, "opt --workers 4 --learners 2 --stats"),
    (64, "opt --workers 1 --learners 8 --stats"),
    (200, "opt --workers 16 --learners 1 --stats"),
];

/// Whether the counts of so many units are in order, where there are learners: each pair is a hit or a miss, each miss
/// was taken or dropped, and all that was taken was learned.
fn agree(stats: &Stats, units: u64) -> bool {
    if stats.pairs != units.wrapping_mul(16) || stats.rules != 11 {
        return false;
    }
    if stats.hits.wrapping_add(stats.misses) != stats.pairs {
        return false;
    }
    stats.posted.wrapping_add(stats.full) == stats.misses && stats.learned == stats.posted
}

/// Whether the run ends as it must, with the counts in order; up to 64 units the queue takes every miss.
fn is_counted<R: Threads + Wait + Sync>(rt: &R, alloc: Global, row: Row) -> Result<bool, Fail> {
    let (units, words) = row;
    let text = on_tiny(alloc, &units_of(alloc, units)?)?;
    let ended = run(rt, alloc, words, text, &GOOD, &Open)?;
    if ended.status != Status::Done || ended.sink.kept() != output_of(alloc, units)?.as_bytes() {
        return Ok(false);
    }
    let Some(stats) = stats_of(alloc, ended.notes.kept())? else {
        return Ok(false);
    };
    Ok(agree(&stats, u64::from(units)) && (units > 64 || stats.full == 0))
}

#[test]
fn with_learners(rt: HostRuntime) -> Result<(), Fail> {
    for row in LEARNED {
        assert!(rt;
            is_counted(&rt, rt.alloc(), row)?,
            "{} units, {}",
            row.0,
            row.1
        );
    }
    Ok(())
}

/// How many units, the words, and the line.
type AloneRow = (u32, &'static str, &'static str);

const ALONE: [AloneRow; 6] = [
    (
        500,
        "opt --workers 1 --learners 0 --stats",
        "pairs 8000 hits 0 misses 8000 posted 1024 full 6976 learned 0 rules 11\n",
    ),
    (
        500,
        "opt --workers 16 --learners 0 --stats",
        "pairs 8000 hits 0 misses 8000 posted 1024 full 6976 learned 0 rules 11\n",
    ),
    // The queue has room for the misses of 64 units.
    (
        64,
        "opt --workers 4 --learners 0 --stats",
        "pairs 1024 hits 0 misses 1024 posted 1024 full 0 learned 0 rules 11\n",
    ),
    (
        65,
        "opt --workers 4 --learners 0 --stats",
        "pairs 1040 hits 0 misses 1040 posted 1024 full 16 learned 0 rules 11\n",
    ),
    (
        1,
        "opt --workers 16 --learners 0 --stats",
        "pairs 16 hits 0 misses 16 posted 16 full 0 learned 0 rules 11\n",
    ),
    (1, "opt --workers 16 --learners 0", ""),
];

#[test]
fn without_learners(rt: HostRuntime) -> Result<(), Fail> {
    let alloc = rt.alloc();
    for (units, words, told) in ALONE {
        let text = on_tiny(alloc, &units_of(alloc, units)?)?;
        let ended = run(&rt, alloc, words, text, &GOOD, &Open)?;
        assert_eq!(rt; ended.status, Status::Done, "{units} units, {words}");
        let output = output_of(alloc, units)?;
        assert!(rt;
            ended.sink.kept() == output.as_bytes(),
            "{units} units, {words}"
        );
        assert_eq!(rt;
            ended.notes.kept(),
            told.as_bytes(),
            "{units} units, {words}"
        );
    }
    Ok(())
}

/// Adds up what it is told: how many units have begun and ended, and the indexes of those that have begun.
#[derive(Drop)]
struct Tally {
    begun: AtomicU64,
    ended: AtomicU64,
    indexes: AtomicU64,
}

impl Gate for Tally {
    fn at(&self, place: Place) {
        match place {
            Place::UnitStart(index) => {
                self.begun.fetch_add(1, Ordering::SeqCst);
                self.indexes.fetch_add(u64::from(index), Ordering::SeqCst);
            }
            Place::UnitEnd(_) => {
                self.ended.fetch_add(1, Ordering::SeqCst);
            }
            Place::Published => {}
        }
    }
}

/// Each unit begins once and ends once.
#[test]
fn each_unit_once(rt: HostRuntime) -> Result<(), Fail> {
    let alloc = rt.alloc();
    for words in ["opt --workers 1", "opt --workers 3", "opt --workers 16"] {
        let gate = Tally {
            begun: AtomicU64::new(0),
            ended: AtomicU64::new(0),
            indexes: AtomicU64::new(0),
        };
        let text = on_tiny(alloc, &units_of(alloc, 20)?)?;
        let ended = run(&rt, alloc, words, text, &GOOD, &gate)?;
        assert_eq!(rt; ended.status, Status::Done, "{words}");
        assert_eq!(rt; gate.begun.load(Ordering::SeqCst), 20, "{words}");
        assert_eq!(rt; gate.ended.load(Ordering::SeqCst), 20, "{words}");
        assert_eq!(rt; gate.indexes.load(Ordering::SeqCst), 190, "{words}");
    }
    Ok(())
}

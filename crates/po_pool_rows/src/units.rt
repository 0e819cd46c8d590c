//! Which units each worker gets: a job whose results are the units' indexes, and whose seats keep them.
ghost use Rattle.std.specs.Prelude.{◌≡◌, ◌<◌, ◌≤◌, length, IfOk};

use po_pool::{Bell, Job, Ran, Study, Turn, run_all};
use po_word::{OutOfMemory, push};
use std::alloc::Global;
use std::sync::Wait;
use std::test::Fail;
use std::thread::Threads;

/// Each unit gives its index, which the seat keeps.
struct Indexes;

impl Job for Indexes {
    ghost use Rattle.std.specs.Prelude.{◌≡◌, ◌^◌};

    type Seat = Vec<u32>;

    type Out = u32;

    ghost count = { λ job. 2 ^ 32 };

    ghost good = { λ job place seat done. Unit {0} };

    ghost gives = { λ job index out. out ≡ index };

    fn unit(
        &self,
        _alloc: Global,
        seat: &mut Vec<u32>,
        _place: u32,
        _done: &[u32],
        index: u32,
    ) -> Result<u32, OutOfMemory> {
        push(seat, index)?;
        Ok(index)
    }
}

/// Three turns learn something, and the others nothing.
struct ThreeTurns;

impl Study for ThreeTurns {
    type Seat = u32;

    ghost good = { λ study place seat. Unit {0} };

    fn turn(&self, _alloc: Global, seat: &mut u32, _place: u32) -> Result<Turn, OutOfMemory> {
        if *seat >= 3 {
            return Ok(Turn::Nothing);
        }
        *seat += 1;
        Ok(Turn::Learned)
    }
}

/// How many units, and which of them each worker gets; and how many learners there are.
type Row = (u32, &'static [&'static [u32]], usize);

const ROWS: [Row; 5] = [
    (5, &[&[0, 1, 2, 3, 4]], 0),
    (5, &[&[0, 1, 2, 3, 4]], 2),
    (6, &[&[0], &[1, 2], &[3], &[4, 5]], 0),
    (6, &[&[0], &[1, 2], &[3], &[4, 5]], 2),
    (2, &[&[], &[0], &[], &[1]], 1),
];

/// So many workers, with nothing done.
fn workers(alloc: Global, count: usize) -> Result<Vec<Vec<u32>>, Fail> {
    let mut seats = Vec::new(alloc);
    for _ in 0..count {
        seats.push(Vec::new(alloc))?;
    }
    Ok(seats)
}

/// So many learners, with nothing learned.
fn learners(alloc: Global, count: usize) -> Result<Vec<u32>, Fail> {
    let mut seats = Vec::new(alloc);
    for _ in 0..count {
        seats.push(0)?;
    }
    Ok(seats)
}

/// Whether the results are the units in order, each worker got these, and each learner has learned.
fn is_row(ran: &Ran<u32, Vec<u32>, u32>, units: u32, got: &[&[u32]]) -> bool {
    if !ran.outs.iter().copied().eq(0..units) {
        return false;
    }
    let all = ran
        .workers
        .iter()
        .zip(got)
        .all(|(seat, got)| seat.as_slice() == *got);
    all && ran.learners.iter().all(|seat| *seat == 3)
}

fn runs<R: Threads + Wait + Sync>(rt: &R, alloc: Global, row: Row) -> Result<bool, Fail> {
    let (units, got, studying) = row;
    let seats = workers(alloc, got.len())?;
    let studying = learners(alloc, studying)?;
    if seats.is_empty() || seats.len() > 16 {
        return Ok(false);
    }
    if studying.len() > 8 {
        return Ok(false);
    }
    let bell = Bell::new();
    let ran = run_all(
        rt,
        alloc,
        units,
        &Indexes,
        seats,
        &ThreeTurns,
        studying,
        &bell,
    )?;
    Ok(is_row(&ran, units, got))
}

#[test]
fn units(rt: HostRuntime) -> Result<(), Fail> {
    for row in ROWS {
        assert!(rt; runs(&rt, rt.alloc(), row)?, "{} units", row.0);
    }
    Ok(())
}

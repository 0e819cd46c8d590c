//! A learner goes on while the workers do: the only unit waits until a learner has found nothing twice, which it does
//! only where it isn't ended by the first time.
ghost use Rattle.std.specs.Prelude.{◌≡◌, ◌<◌, ◌≤◌, length, IfOk};

use po_pool::{Bell, Job, Study, Turn, run_all};
use po_word::OutOfMemory;
use std::alloc::Global;
use std::sync::Wait;
use std::sync::atomic::{AtomicU64, Ordering};
use std::test::Fail;
use std::thread;
use std::thread::Threads;

/// How often a unit looks before it gives up.
const LIMIT: u32 = 10_000_000;

/// Rings the bell until the learner was there twice, or the limit is reached; the result says which.
#[derive(Drop)]
struct Waits<'a, R: Wait + Sync> {
    rt: &'a R,
    bell: &'a Bell,
    turns: &'a AtomicU64,
}

impl<'a, R: Wait + Sync> Job for Waits<'a, R> {
    ghost use Rattle.std.specs.Prelude.{◌≡◌};

    type Seat = u32;

    type Out = bool;

    ghost count = { λ job. 1 };

    ghost good = { λ job place seat done. Unit {0} };

    ghost gives = { λ job index out. Unit {0} };

    fn unit(
        &self,
        _alloc: Global,
        _seat: &mut u32,
        _place: u32,
        _done: &[bool],
        _index: u32,
    ) -> Result<bool, OutOfMemory> {
        for _ in 0..LIMIT {
            self.bell.ring(self.rt);
            if self.turns.load(Ordering::SeqCst) >= 2 {
                return Ok(true);
            }
            thread::yield_now();
        }
        Ok(false)
    }
}

/// Finds nothing, and counts its turns.
#[derive(Drop)]
struct Nothing<'a> {
    turns: &'a AtomicU64,
}

impl<'a> Study for Nothing<'a> {
    type Seat = u32;

    ghost good = { λ study place seat. Unit {0} };

    fn turn(&self, _alloc: Global, _seat: &mut u32, _place: u32) -> Result<Turn, OutOfMemory> {
        self.turns.fetch_add(1, Ordering::SeqCst);
        Ok(Turn::Nothing)
    }
}

fn seat(alloc: Global) -> Result<Vec<u32>, Fail>
    ensures { IfOk result (λ seats. length seats.items ≡ 1) }
{
    let mut seats = Vec::new(alloc);
    seats.push(0)?;
    Ok(seats)
}

fn goes_on<R: Threads + Wait + Sync>(rt: &R, alloc: Global) -> Result<bool, Fail> {
    let turns = AtomicU64::new(0);
    let bell = Bell::new();
    let job = Waits {
        rt,
        bell: &bell,
        turns: &turns,
    };
    let study = Nothing { turns: &turns };
    let ran = run_all(
        rt,
        alloc,
        1,
        &job,
        seat(alloc)?,
        &study,
        seat(alloc)?,
        &bell,
    )?;
    Ok(ran.outs.as_slice() == [true].as_slice())
}

#[test]
fn together(rt: HostRuntime) -> Result<(), Fail> {
    assert!(rt; goes_on(&rt, rt.alloc())?);
    Ok(())
}

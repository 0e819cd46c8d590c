//! All workers and learners, each in a thread where one can be started, from the last place down to the first.
ghost use Rattle.std.specs.Prelude.{◌≡◌, ◌+◌, ◌<◌, ◌≤◌, [], ◌∷◌, ◌++◌, length, IfOk, OnOk};
ghost use Rattle.po_pool.specs.Worked.{first_unit, AreThrough, EachAt, IsThrough};

use crate::bell::Bell;
use crate::job::{Job, Study};
use crate::learn::learn;
use crate::work::{Worked, work};
use po_word::{OutOfMemory, push};
use std::alloc::Global;
use std::snapshot::Snapshot;
use std::sync::Wait;
use std::thread;
use std::thread::{Promise, Scope, Threads};

/// What workers and learners gave back: the results in the units' order, and all seats in their order
/// (docs/LEARNING.md, "The pool").
#[derive(Drop)]
pub struct Ran<O: Drop, W: Drop, S: Drop> {
    pub outs: Vec<O>,
    pub workers: Vec<W>,
    pub learners: Vec<S>,
}

/// What a worker's thread promises.
#[derive(Drop)]
struct Working<J: Job> {
    job: Snapshot<J>,
    place: u32,
    from: u32,
    to: u32,
}

impl<J: Job> Promise<Result<Worked<J::Seat, J::Out>, OutOfMemory>> for Working<J> {
    ghost kept_by = { λ p r. IfOk r
        (λ x. IsThrough (J.good p.job.value) (J.gives p.job.value) p.place p.from p.to x.seat x.outs.items) };
}

/// What a learner's thread promises.
#[derive(Drop)]
struct Learning<S: Study> {
    study: Snapshot<S>,
    place: u32,
}

impl<S: Study> Promise<S::Seat> for Learning<S> {
    ghost kept_by = { λ p seat. S.good p.study.value p.place seat };
}

/// The units of the worker at this place, of so many: the index of the first, and the index behind the last.
fn range_of(place: u32, units: u32, workers: u32) -> (u32, u32)
    requires { (place < workers) × (workers ≤ 16) }
    ensures value { (result.0 ≡ first_unit units workers place) × (result.1 ≡ first_unit units workers (place + 1)) }
    ensures range { (result.0 ≤ result.1) × (result.1 ≤ units) }
{
    let (place, units, workers) = (u64::from(place), u64::from(units), u64::from(workers));
    (
        (place * units / workers) as u32,
        ((place + 1) * units / workers) as u32,
    )
}

fn append<T: Drop>(xs: &mut Vec<T>, more: Vec<T>) -> Result<(), OutOfMemory>
    ensures { OnOk result (xs.new.items ≡ xs.old.items ++ more.items) }
{
    for x in more {
        push(xs, x)?;
    }
    Ok(())
}

/// What the first workers gave back: their seats, and the results of their units.
#[derive(Drop)]
struct Shift<S: Drop, O: Drop> {
    seats: Vec<S>,
    outs: Vec<O>,
}

/// The next worker behind them.
fn joined<S: Drop, O: Drop>(
    first: Shift<S, O>,
    next: Worked<S, O>,
) -> Result<Shift<S, O>, OutOfMemory>
    ensures seats { IfOk result (λ r. r.seats.items ≡ first.seats.items ++ next.seat ∷ []) }
    ensures outs { IfOk result (λ r. r.outs.items ≡ first.outs.items ++ next.outs.items) }
{
    let Shift {
        mut seats,
        mut outs,
    } = first;
    let Worked { seat, outs: more } = next;
    push(&mut seats, seat)?;
    append(&mut outs, more)?;
    Ok(Shift { seats, outs })
}

/// The first workers, of so many. One that has no thread runs once the others were started.
fn work_all<'s, E, J: Job + 's, R: Threads + Wait>(
    scope: &Scope<'s, E>,
    rt: &R,
    alloc: Global,
    job: &'s J,
    units: u32,
    workers: u32,
    mut seats: Vec<J::Seat>,
) -> Result<Shift<J::Seat, J::Out>, OutOfMemory>
where
    J::Seat: 's,
    J::Out: 's,
    requires units { units ≤ J.count job.now }
    requires workers { (length seats.items ≤ workers) × (workers ≤ 16) × (0 < workers) }
    requires good { EachAt (λ place seat. J.good job.now place seat []) seats.items }
    ensures seats { IfOk result (λ r. length r.seats.items ≡ length seats.items) }
    ensures worked { IfOk result
        (λ r. AreThrough (J.good job.now) (J.gives job.now) units workers r.seats.items r.outs.items) }
{
    let Some(seat) = seats.pop() else {
        return Ok(Shift {
            seats: Vec::new(alloc),
            outs: Vec::new(alloc),
        });
    };
    let place = seats.len() as u32;
    let (from, to) = range_of(place, units, workers);
    let promise = Working {
        job: Snapshot::of(job),
        place,
        from,
        to,
    };
    match scope.spawn_with(
        promise,
        move || -> Result<Worked<J::Seat, J::Out>, OutOfMemory>
            requires range { (from ≤ to) × (to ≤ J.count job.now) }
            requires good { J.good job.now place seat [] }
            ensures { IfOk result
                (λ r. IsThrough (J.good job.entry.now) (J.gives job.entry.now) place from to r.seat r.outs.items) }
        { work(alloc, job, seat, place, from, to) },
    ) {
        Ok(child) => {
            let others = work_all(scope, rt, alloc, job, units, workers, seats);
            let mine = child.join(rt);
            joined(others?, mine?)
        }
        Err(refused) => {
            let others = work_all(scope, rt, alloc, job, units, workers, seats);
            let mine = (refused.value)();
            joined(others?, mine?)
        }
    }
}

/// The first learners, and all workers. A learner that has no thread runs once the workers have ended.
fn learn_all<'s, E, J: Job + 's, S: Study + 's, R: Threads + Wait + Sync + 's>(
    scope: &Scope<'s, E>,
    rt: &'s R,
    alloc: Global,
    units: u32,
    job: &'s J,
    workers: Vec<J::Seat>,
    study: &'s S,
    mut learners: Vec<S::Seat>,
    bell: &'s Bell,
) -> Result<Ran<J::Out, J::Seat, S::Seat>, OutOfMemory>
where
    J::Seat: 's,
    J::Out: 's,
    S::Seat: 's,
    requires units { units ≤ J.count job.now }
    requires workers { (0 < length workers.items) × (length workers.items ≤ 16) }
    requires learners { length learners.items ≤ 8 }
    requires ready { EachAt (λ place seat. J.good job.now place seat []) workers.items }
    requires seated { EachAt (S.good study.now) learners.items }
    ensures workers { IfOk result (λ r. length r.workers.items ≡ length workers.items) }
    ensures worked { IfOk result (λ r. AreThrough (J.good job.now) (J.gives job.now) units (length workers.items)
        r.workers.items r.outs.items) }
    ensures learners { IfOk result (λ r. length r.learners.items ≡ length learners.items) }
    ensures seated { IfOk result (λ r. EachAt (S.good study.now) r.learners.items) }
{
    let Some(seat) = learners.pop() else {
        return all_workers(scope, rt, alloc, units, job, workers, bell);
    };
    let place = learners.len() as u32;
    let promise = Learning {
        study: Snapshot::of(study),
        place,
    };
    let (ran, seat) = match scope.spawn_with(
        promise,
        move || -> S::Seat
            requires { S.good study.now place seat }
            ensures { S.good study.entry.now place result }
        { learn(rt, alloc, study, seat, place, bell) },
    ) {
        Ok(child) => {
            let ran = learn_all(scope, rt, alloc, units, job, workers, study, learners, bell);
            (ran, child.join(rt))
        }
        Err(refused) => {
            let ran = learn_all(scope, rt, alloc, units, job, workers, study, learners, bell);
            (ran, (refused.value)())
        }
    };
    let mut ran = ran?;
    push(&mut ran.learners, seat)?;
    Ok(ran)
}

/// All workers. Then the bell tells that they have ended.
fn all_workers<'s, E, J: Job + 's, S: Drop, R: Threads + Wait>(
    scope: &Scope<'s, E>,
    rt: &R,
    alloc: Global,
    units: u32,
    job: &'s J,
    workers: Vec<J::Seat>,
    bell: &Bell,
) -> Result<Ran<J::Out, J::Seat, S>, OutOfMemory>
where
    J::Seat: 's,
    J::Out: 's,
    requires units { units ≤ J.count job.now }
    requires workers { (0 < length workers.items) × (length workers.items ≤ 16) }
    requires ready { EachAt (λ place seat. J.good job.now place seat []) workers.items }
    ensures workers { IfOk result (λ r. length r.workers.items ≡ length workers.items) }
    ensures worked { IfOk result (λ r. AreThrough (J.good job.now) (J.gives job.now) units (length workers.items)
        r.workers.items r.outs.items) }
    ensures learners { IfOk result (λ r. r.learners.items ≡ []) }
{
    let count = workers.len() as u32;
    let shift = work_all(scope, rt, alloc, job, units, count, workers);
    bell.end(rt);
    let Shift { seats, outs } = shift?;
    Ok(Ran {
        outs,
        workers: seats,
        learners: Vec::new(alloc),
    })
}

/// Runs a job and a study, each worker and each learner in a thread where one can be started (docs/LEARNING.md, "The
/// pool"): 1 to 16 workers go through the first `units` units of the job, the one at place w of W through those from
/// w*units/W on, and at most 8 learners take turns until the workers have ended and a turn finds nothing. A worker
/// that has no thread is run by the caller once the others were started, and such a learner once the workers have
/// ended. Memory that is refused to a learner ends that learner alone. It fails only where memory is refused to a
/// worker or to the run itself; then no seat comes back. It may wait.
pub fn run_all<R: Threads + Wait + Sync, J: Job, S: Study>(
    rt: &R,
    alloc: Global,
    units: u32,
    job: &J,
    workers: Vec<J::Seat>,
    study: &S,
    learners: Vec<S::Seat>,
    bell: &Bell,
) -> Result<Ran<J::Out, J::Seat, S::Seat>, OutOfMemory>
    requires units { units ≤ J.count job.now }
    requires workers { (0 < length workers.items) × (length workers.items ≤ 16) }
    requires learners { length learners.items ≤ 8 }
    requires ready { EachAt (λ place seat. J.good job.now place seat []) workers.items }
    requires seated { EachAt (S.good study.now) learners.items }
    ensures outs { IfOk result (λ r. length r.outs.items ≡ units) }
    ensures gives { IfOk result (λ r. EachAt (J.gives job.now) r.outs.items) }
    ensures workers { IfOk result (λ r. length r.workers.items ≡ length workers.items) }
    ensures worked { IfOk result (λ r. AreThrough (J.good job.now) (J.gives job.now) units (length workers.items)
        r.workers.items r.outs.items) }
    ensures learners { IfOk result (λ r. length r.learners.items ≡ length learners.items) }
    ensures seated { IfOk result (λ r. EachAt (S.good study.now) r.learners.items) }
{
    thread::scope(
        thread::scope_env(),
        rt,
        |scope| -> Result<Ran<J::Out, J::Seat, S::Seat>, OutOfMemory>
            requires units { units ≤ J.count job.now }
            requires workers { (0 < length workers.items) × (length workers.items ≤ 16) }
            requires learners { length learners.items ≤ 8 }
            requires ready { EachAt (λ place seat. J.good job.now place seat []) workers.items }
            requires seated { EachAt (S.good study.now) learners.items }
            ensures workers { IfOk result (λ r. length r.workers.items ≡ length workers.items) }
            ensures worked { IfOk result (λ r. AreThrough (J.good job.entry.now) (J.gives job.entry.now) units
                (length workers.items) r.workers.items r.outs.items) }
            ensures learners { IfOk result (λ r. length r.learners.items ≡ length learners.items) }
            ensures seated { IfOk result (λ r. EachAt (S.good study.entry.now) r.learners.items) }
        { learn_all(scope, rt, alloc, units, job, workers, study, learners, bell) },
    )
}

//! The mode `opt`: opens a store and a queue, runs all threads over the units, and ends the run.
ghost use Rattle.std.specs.Prelude.{◌≡◌, ◌+◌, ◌-◌, ◌<◌, ◌≤◌, ◌^◌, [], List, All, IsSome, length, IfOk};
ghost use Rattle.std.specs.Arc.{arc_value};
ghost use Rattle.po_model.specs.declared.code.UnitCode.{UnitCode};
ghost use Rattle.po_model.specs.Blocks.{code_of};
ghost use Rattle.po_model.specs.Machines.{IsMachine};
ghost use Rattle.po_model.specs.UnitCodes.{IsFormedCode};
ghost use Rattle.po_queue.specs.Passes.{new_pass};
ghost use Rattle.po_settle.specs.Lines.{AreRulesOf};
ghost use Rattle.po_team.specs.Ends.{AreBack, take_count};
ghost use Rattle.po_team.specs.Seats.{HasLearned};
ghost use Rattle.po_team.specs.Works.{AreWorksOf, HasPosted, taken_in, dropped_in};
ghost use Rattle.std.specs.List.{sum_by};
ghost use Rattle.po_opt.specs.Counts.{AreCounts, IsMade};
ghost use Rattle.po_opt.specs.Told.{AreSlowed, units_of};

use crate::finish::{Opted, end_run};
use crate::works::tell;
use po_model::{Machine, UnitCode};
use po_pool::Gate;
use po_queue::{Pass, Posts, open};
use po_rule::{Miss, Table};
use po_store::{Edition, Opened, Publisher, StoreName, open_store};
use po_table::RuleTable;
use po_team::{Ended, LearnerSeat, Taught, WorkerSeat, learner_seats, run_seats, worker_seats};
use po_word::OutOfMemory;
use std::alloc::Global;
use std::marker::Brand;
use std::sync::ledger::Blank;
use std::sync::{Arc, Mutex, Wait};
use std::thread::Threads;

/// How many misses the queue may hold.
const ROOM: usize = 1024;

/// Ends a run with what its threads left.
fn end<V: Edition<T, L>, T: Table + Drop, L: StoreName, R: Wait + Drop, W: Wait, G: Gate>(
    rt: &W,
    alloc: Global,
    gate: &G,
    machine: &Arc<Machine>,
    publisher: &mut Publisher<V, T, L, R>,
    posts: Posts<Miss>,
    pass: Pass<Miss>,
    ended: Ended<L>,
) -> Result<Opted, OutOfMemory>
    requires named { arc_value machine.now ≡ L.machine }
    requires described { IsMachine (arc_value machine.now) }
    requires capacity { posts.queue.capacity ≡ 1024 }
    requires pass { pass ≡ new_pass posts.queue }
    requires own { (publisher.old.parts ≡ 1) × (publisher.old.amount ≡ 0) }
    requires parts { 1 + length ended.shares.items ≡ L.parts }
    requires works { (codes : List UnitCode) × AreWorksOf (arc_value machine.now) codes ended.works.items }
    requires passes { AreBack posts.queue (posts.passes - 1) (taken_in ended.works.items)
        (dropped_in ended.works.items) ended.passes.items }
    requires some { 0 < posts.passes }
    requires shares { All (λ s. s.parts ≡ 1) ended.shares.items }
    requires counted { sum_by (λ s. s.amount) ended.shares.items ≤ take_count ended.passes.items }
    requires lost { take_count ended.passes.items ≤ sum_by (λ s. s.amount) ended.shares.items
        + length ended.shares.items }
    ensures { IfOk result (λ o. (codes : List UnitCode) → AreWorksOf (arc_value machine.now) codes ended.works.items
        → IsMade (arc_value machine.now) codes (length ended.shares.items) o) }
{
    let Ended {
        works,
        passes,
        shares,
    } = ended;
    let told = tell(alloc, works)?;
    let made = end_run(
        rt, alloc, gate, machine, publisher, posts, pass, passes, shares, told,
    )?;
    Ok(made)
}

/// Runs all threads, and ends the run.
fn run<
    V: Edition<T, L> + Send + Sync,
    T: Table + Drop + Send + Sync,
    L: StoreName + Send + Sync,
    R: Wait + Drop + Send + Sync,
    W: Threads + Wait + Sync,
    G: Gate + Sync,
>(
    rt: &W,
    alloc: Global,
    gate: &G,
    machine: &Arc<Machine>,
    codes: &[UnitCode],
    publisher: Publisher<V, T, L, R>,
    posts: Posts<Miss>,
    pass: Pass<Miss>,
    workers: Vec<WorkerSeat<T, L>>,
    learners: Vec<LearnerSeat<L>>,
) -> Result<Opted, OutOfMemory>
    requires named { arc_value machine.now ≡ L.machine }
    requires described { IsMachine (arc_value machine.now) }
    requires formed { All (λ u. IsFormedCode (code_of u.code)) codes.now }
    requires few { length codes.now < 2 ^ 32 }
    requires capacity { posts.queue.capacity ≡ 1024 }
    requires pass { pass ≡ new_pass posts.queue }
    requires own { (publisher.parts ≡ 1) × (publisher.amount ≡ 0) }
    requires parts { 1 + length learners.items ≡ L.parts }
    requires passes { 1 + (length workers.items + length learners.items) ≡ posts.passes }
    requires workers { (0 < length workers.items) × (length workers.items ≤ 16) }
    requires learners { length learners.items ≤ 8 }
    requires ready { All (λ s. IsSome s.way × (T.machine s.empty ≡ L.machine) × (T.rules s.empty ≡ [])
        × HasPosted posts.queue s.pass s.fulls 0 0) workers.items }
    requires seated { All (λ s. HasLearned posts.queue s.pass s.share.parts s.share.amount s.refused)
        learners.items }
    ensures { IfOk result (λ o. IsMade (arc_value machine.now) codes.now (length learners.items) o) }
{
    let taught = Mutex::new(Taught::new(publisher));
    let ran = run_seats(
        rt, alloc, gate, machine, codes, &posts, &taught, workers, learners,
    );
    let mut publisher = taught.into_inner().into_publisher();
    let made = match ran {
        Ok(ended) => end(rt, alloc, gate, machine, &mut publisher, posts, pass, ended),
        Err(refusal) => Err(refusal),
    };
    publisher.close();
    made
}

/// Opens the store and the queue, and runs all threads.
fn run_over<L: StoreName + Send + Sync, W: Threads + Wait + Sync, G: Gate + Sync>(
    rt: &W,
    alloc: Global,
    gate: &G,
    opened: Opened,
    blank: Blank,
    machine: &Arc<Machine>,
    codes: &[UnitCode],
    workers: u8,
    learners: u8,
) -> Result<Opted, OutOfMemory>
    requires history { opened.seen.book ≡ L.book }
    requires count { (blank.name ≡ L.name) × (blank.parts ≡ L.parts) × (blank.parts ≡ 1 + learners) }
    requires machine { arc_value machine.now ≡ L.machine }
    requires described { IsMachine (arc_value machine.now) }
    requires formed { All (λ u. IsFormedCode (code_of u.code)) codes.now }
    requires few { length codes.now < 2 ^ 32 }
    requires workers { (0 < workers) × (workers ≤ 16) }
    requires learners { learners ≤ 8 }
    ensures { IfOk result (λ o. IsMade (arc_value machine.now) codes.now learners o) }
{
    let (mut publisher, readers) = open_store::<RuleTable, L, &W>(
        alloc,
        rt,
        opened,
        blank,
        machine.clone()?,
        workers,
    )?;
    let Ok((posts, mut passes)) = open::<Miss>(alloc, ROOM, 1 + workers + learners) else {
        return Err(OutOfMemory);
    };
    let Some(pass) = passes.pop() else {
        unreachable!()
    };
    let workers = worker_seats(alloc, machine, &posts, &mut passes, readers)?;
    let learners = learner_seats(alloc, &posts, &mut publisher, passes)?;
    run(
        rt, alloc, gate, machine, codes, publisher, posts, pass, workers, learners,
    )
}

/// What all passes make of each code, by so many workers (1 to 16) and learners (at most 8), with the rules of all
/// pairs that are tried and the counts of the run (docs/LEARNING.md, "Behind the join"). It fails only where memory is
/// refused. It may wait.
pub fn opt_all<W: Threads + Wait + Sync, G: Gate + Sync>(
    rt: &W,
    alloc: Global,
    gate: &G,
    machine: &Arc<Machine>,
    codes: &[UnitCode],
    workers: u8,
    learners: u8,
) -> Result<Opted, OutOfMemory>
    requires machine { IsMachine (arc_value machine.now) }
    requires formed { All (λ u. IsFormedCode (code_of u.code)) codes.now }
    requires few { length codes.now < 2 ^ 32 }
    requires workers { (0 < workers) × (workers ≤ 16) }
    requires learners { learners ≤ 8 }
    ensures codes { IfOk result
        (λ o. AreSlowed (arc_value machine.now) (units_of codes.now) (units_of o.codes.items)) }
    ensures rules { IfOk result (λ o. AreRulesOf (arc_value machine.now) (units_of codes.now) o.rules.items) }
    ensures counts { IfOk result
        (λ o. AreCounts (arc_value machine.now) (units_of codes.now) 1024 learners o.rules.items o.counts) }
{
    let made = run_over::<Brand, W, G>(
        rt,
        alloc,
        gate,
        Opened::new(),
        Blank::new(1 + u64::from(learners)),
        machine,
        codes,
        workers,
        learners,
    )?;
    Ok(made)
}

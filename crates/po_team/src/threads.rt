//! All threads of a run, until each has ended, and what is left then.
ghost use Rattle.std.specs.Prelude.{◌≡◌, ◌+◌, ◌<◌, ◌≤◌, ◌^◌, [], ◌∷◌, ◌++◌, map, length, All, IsSome, IfOk, OnOk};
ghost use Rattle.std.specs.Arc.{arc_value};
ghost use Rattle.std.specs.List.{sum_by};
ghost use Rattle.po_model.specs.Blocks.{code_of};
ghost use Rattle.po_model.specs.Machines.{IsMachine};
ghost use Rattle.po_model.specs.UnitCodes.{IsFormedCode};
ghost use Rattle.po_team.specs.Ends.{passes_in, take_count, AreBack};
ghost use Rattle.po_team.specs.Seats.{HasLearned};
ghost use Rattle.po_team.specs.Works.{AreWorksOf, HasPosted, taken_in, dropped_in};

use crate::learners::{LearnerSeat, Learners};
use crate::taught::Taught;
use crate::workers::{WorkerSeat, Workers};
use po_model::{Machine, UnitCode};
use po_pool::{Bell, Gate, Ran, run_all};
use po_queue::{Pass, Posts};
use po_rule::{Miss, Table};
use po_store::{Edition, StoreName};
use po_tally::Brief;
use po_word::{OutOfMemory, push};
use std::alloc::Global;
use std::sync::ledger::Share;
use std::sync::{Arc, Mutex, Wait};
use std::thread::Threads;

/// What is left when each thread of a run has ended (docs/LEARNING.md, "Workers and learners").
#[derive(Drop)]
pub struct Ended<L: StoreName> {
    /// What the units gave, in their order.
    pub works: Vec<Brief>,
    /// The passes of all workers, and behind them those of all learners.
    pub passes: Vec<Pass<Miss>>,
    /// The learners' shares of the count.
    pub shares: Vec<Share<L>>,
}

/// How many codes there are.
fn count(codes: &[UnitCode]) -> u32
    requires { length codes.now < 2 ^ 32 }
    ensures { result ≡ length codes.now }
{
    codes.len() as u32
}

/// Runs all workers and learners until each has ended.
fn run<
    V: Edition<T, L> + Send + Sync,
    T: Table + Drop + Send + Sync,
    L: StoreName + Send + Sync,
    R: Wait + Drop + Send + Sync,
    W: Threads + Wait + Sync,
    G: Gate + Sync,
>(
    rt: &W,
    alloc: Global,
    gate: &G,
    machine: &Arc<Machine>,
    codes: &[UnitCode],
    posts: &Posts<Miss>,
    taught: &Mutex<Taught<V, T, L, R>>,
    workers: Vec<WorkerSeat<T, L>>,
    learners: Vec<LearnerSeat<L>>,
) -> Result<Ran<Brief, WorkerSeat<T, L>, LearnerSeat<L>>, OutOfMemory>
    requires named { arc_value machine.now ≡ L.machine }
    requires described { IsMachine (arc_value machine.now) }
    requires formed { All (λ u. IsFormedCode (code_of u.code)) codes.now }
    requires few { length codes.now < 2 ^ 32 }
    requires workers { (0 < length workers.items) × (length workers.items ≤ 16) }
    requires learners { length learners.items ≤ 8 }
    requires ready { All (λ s. IsSome s.way × (T.machine s.empty ≡ L.machine) × (T.rules s.empty ≡ [])
        × HasPosted posts.now.queue s.pass s.fulls 0 0) workers.items }
    requires seated { All (λ s. HasLearned posts.now.queue s.pass s.share.parts s.share.amount s.refused)
        learners.items }
    ensures works { IfOk result (λ r. AreWorksOf (arc_value machine.now) codes.now r.outs.items) }
    ensures back { IfOk result (λ r. AreBack posts.now.queue (length workers.items)
        (taken_in r.outs.items) (dropped_in r.outs.items) (passes_in (map (λ s. s.pass) r.workers.items))) }
    ensures took { IfOk result (λ r. take_count (passes_in (map (λ s. s.pass) r.workers.items)) ≡ 0) }
    ensures learners { IfOk result (λ r. length r.learners.items ≡ length learners.items) }
    ensures learned { IfOk result (λ r.
        All (λ s. HasLearned posts.now.queue s.pass s.share.parts s.share.amount s.refused) r.learners.items) }
{
    let bell = Bell::new();
    let job = Workers::new(rt, machine, codes, posts, &bell, taught, gate);
    let study = Learners::new(rt, posts, taught, machine.clone()?, gate);
    let units = count(codes);
    let ran = run_all(rt, alloc, units, &job, workers, &study, learners, &bell)?;
    Ok(ran)
}

/// Puts a pass behind others, where there is one.
fn take_pass(passes: &mut Vec<Pass<Miss>>, pass: Option<Pass<Miss>>) -> Result<(), OutOfMemory>
    ensures { OnOk result (passes.new.items ≡ passes.old.items ++ passes_in (pass ∷ [])) }
{
    match pass {
        Some(pass) => push(passes, pass),
        None => Ok(()),
    }
}

/// Puts the passes of these seats behind others.
fn take_passes<T: Table + Drop, L: StoreName>(
    passes: &mut Vec<Pass<Miss>>,
    seats: Vec<WorkerSeat<T, L>>,
) -> Result<(), OutOfMemory>
    ensures { OnOk result
        (passes.new.items ≡ passes.old.items ++ passes_in (map (λ s. s.pass) seats.items)) }
{
    for seat in seats {
        let WorkerSeat { pass, .. } = seat;
        take_pass(passes, pass)?;
    }
    Ok(())
}

/// Puts the passes of these seats behind others, and takes their shares.
fn take_shares<L: StoreName>(
    alloc: Global,
    passes: &mut Vec<Pass<Miss>>,
    seats: Vec<LearnerSeat<L>>,
) -> Result<Vec<Share<L>>, OutOfMemory>
    ensures passes { OnOk result (passes.new.items ≡ passes.old.items ++ map (λ s. s.pass) seats.items) }
    ensures shares { IfOk result (λ shares. shares.items ≡ map (λ s. s.share) seats.items) }
{
    let mut shares = Vec::new(alloc);
    for seat in seats {
        let LearnerSeat { pass, share, .. } = seat;
        push(passes, pass)?;
        push(&mut shares, share)?;
    }
    Ok(shares)
}

/// Runs all workers and learners until each has ended, and gives what is left then. It fails only where memory is
/// refused to a worker or to the run itself. It may wait (docs/LEARNING.md, "Workers and learners").
pub fn run_seats<
    V: Edition<T, L> + Send + Sync,
    T: Table + Drop + Send + Sync,
    L: StoreName + Send + Sync,
    R: Wait + Drop + Send + Sync,
    W: Threads + Wait + Sync,
    G: Gate + Sync,
>(
    rt: &W,
    alloc: Global,
    gate: &G,
    machine: &Arc<Machine>,
    codes: &[UnitCode],
    posts: &Posts<Miss>,
    taught: &Mutex<Taught<V, T, L, R>>,
    workers: Vec<WorkerSeat<T, L>>,
    learners: Vec<LearnerSeat<L>>,
) -> Result<Ended<L>, OutOfMemory>
    requires named { arc_value machine.now ≡ L.machine }
    requires described { IsMachine (arc_value machine.now) }
    requires formed { All (λ u. IsFormedCode (code_of u.code)) codes.now }
    requires few { length codes.now < 2 ^ 32 }
    requires workers { (0 < length workers.items) × (length workers.items ≤ 16) }
    requires learners { length learners.items ≤ 8 }
    requires ready { All (λ s. IsSome s.way × (T.machine s.empty ≡ L.machine) × (T.rules s.empty ≡ [])
        × HasPosted posts.now.queue s.pass s.fulls 0 0) workers.items }
    requires seated { All (λ s. HasLearned posts.now.queue s.pass s.share.parts s.share.amount s.refused)
        learners.items }
    ensures works { IfOk result (λ r. AreWorksOf (arc_value machine.now) codes.now r.works.items) }
    ensures passes { IfOk result (λ r. AreBack posts.now.queue (length workers.items + length learners.items)
        (taken_in r.works.items) (dropped_in r.works.items) r.passes.items) }
    ensures shares { IfOk result (λ r. (length r.shares.items ≡ length learners.items)
        × All (λ s. s.parts ≡ 1) r.shares.items) }
    ensures counted { IfOk result (λ r. sum_by (λ s. s.amount) r.shares.items ≤ take_count r.passes.items) }
    ensures lost { IfOk result (λ r.
        take_count r.passes.items ≤ sum_by (λ s. s.amount) r.shares.items + length learners.items) }
{
    let ran = run(
        rt, alloc, gate, machine, codes, posts, taught, workers, learners,
    )?;
    let Ran {
        outs,
        workers,
        learners,
    } = ran;
    let mut passes = Vec::new(alloc);
    take_passes(&mut passes, workers)?;
    let shares = take_shares(alloc, &mut passes, learners)?;
    Ok(Ended {
        works: outs,
        passes,
        shares,
    })
}

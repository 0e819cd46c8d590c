//! What is left in the queue once all threads have ended is learned, and what each learner counted is gathered.
ghost use Rattle.std.specs.Prelude.{◌≡◌, ◌+◌, ◌<◌, ◌≤◌, true, All, length, IfOk, OnOk};
ghost use Rattle.std.specs.List.{sum_by};
ghost use Rattle.std.specs.Arc.{arc_value};
ghost use mathlib.Core.List.{IsPrefix};
ghost use Rattle.po_model.specs.Machines.{IsMachine};
ghost use Rattle.po_queue.specs.Passes.{Conserves, IsOf, put_count};
ghost use Rattle.po_store.specs.Logged.{Logged};
ghost use Rattle.po_store.specs.Published.{plain};
ghost use Rattle.po_team.specs.Ends.{take_count};
ghost use Rattle.po_opt.specs.Ended.{AreLearned, learned_of};

use po_model::Machine;
use po_pool::{Gate, Place};
use po_queue::{Pass, Posts};
use po_rule::{Miss, Table};
use po_store::{Edition, Publisher, StoreName};
use po_team::make_rule;
use po_word::OutOfMemory;
use std::alloc::Global;
use std::sync::ledger::Share;
use std::sync::{Arc, Wait};

/// Learns one pair that was left.
fn learn_one<V: Edition<T, L>, T: Table + Drop, L: StoreName, R: Wait + Drop>(
    alloc: Global,
    machine: &Arc<Machine>,
    publisher: &mut Publisher<V, T, L, R>,
    share: &mut Share<L>,
    miss: Miss,
) -> Result<(), OutOfMemory>
    requires named { arc_value machine.now ≡ L.machine }
    requires described { IsMachine (arc_value machine.now) }
    requires part { 0 < share.old.parts }
    ensures amount { OnOk result (share.new.amount ≡ share.old.amount + 1) }
    ensures parts { OnOk result (share.new.parts ≡ share.old.parts) }
    ensures own { OnOk result
        ((publisher.new.parts ≡ publisher.old.parts) × (publisher.new.amount ≡ publisher.old.amount)) }
    ensures published { OnOk result (IsPrefix (plain publisher.old.rules) (plain publisher.new.rules)) }
{
    let pair = miss.pair();
    let learned = make_rule(alloc, machine, &pair)?;
    publisher.learn_one(alloc, share, pair, learned)?;
    Ok(())
}

/// Learns each pair that was left, with one share. The gate is told of each.
fn learn_rest<V: Edition<T, L>, T: Table + Drop, L: StoreName, R: Wait + Drop, G: Gate>(
    alloc: Global,
    machine: &Arc<Machine>,
    publisher: &mut Publisher<V, T, L, R>,
    share: &mut Share<L>,
    gate: &G,
    rest: Vec<Miss>,
) -> Result<(), OutOfMemory>
    requires named { arc_value machine.now ≡ L.machine }
    requires described { IsMachine (arc_value machine.now) }
    requires part { 0 < share.old.parts }
    ensures amount { OnOk result (share.new.amount ≡ share.old.amount + length rest.items) }
    ensures parts { OnOk result (share.new.parts ≡ share.old.parts) }
    ensures own { OnOk result
        ((publisher.new.parts ≡ publisher.old.parts) × (publisher.new.amount ≡ publisher.old.amount)) }
    ensures published { OnOk result (IsPrefix (plain publisher.old.rules) (plain publisher.new.rules)) }
{
    for miss in rest {
        learn_one(alloc, machine, publisher, share, miss)?;
        gate.at(Place::Published);
    }
    Ok(())
}

/// Learns each pair that was left, with the first learner's share. Where there are no learners nothing is learned.
fn learn_left<V: Edition<T, L>, T: Table + Drop, L: StoreName, R: Wait + Drop, G: Gate>(
    alloc: Global,
    machine: &Arc<Machine>,
    publisher: &mut Publisher<V, T, L, R>,
    shares: &mut Vec<Share<L>>,
    gate: &G,
    rest: Vec<Miss>,
) -> Result<(), OutOfMemory>
    requires named { arc_value machine.now ≡ L.machine }
    requires described { IsMachine (arc_value machine.now) }
    requires parts { All (λ s. s.parts ≡ 1) shares.old.items }
    ensures amount { OnOk result (sum_by (λ s. s.amount) shares.new.items
        ≡ sum_by (λ s. s.amount) shares.old.items + learned_of (length shares.old.items) (length rest.items)) }
    ensures parts { OnOk result (sum_by (λ s. s.parts) shares.new.items ≡ sum_by (λ s. s.parts) shares.old.items) }
    ensures own { OnOk result
        ((publisher.new.parts ≡ publisher.old.parts) × (publisher.new.amount ≡ publisher.old.amount)) }
    ensures published { OnOk result (IsPrefix (plain publisher.old.rules) (plain publisher.new.rules)) }
{
    if shares.is_empty() {
        return Ok(());
    }
    learn_rest(alloc, machine, publisher, &mut shares[0], gate, rest)
}

/// Joins these shares to the publisher's own.
fn gather_all<V: Edition<T, L>, T: Table + Drop, L: StoreName, R: Wait + Drop>(
    publisher: &mut Publisher<V, T, L, R>,
    shares: Vec<Share<L>>,
)
    ensures parts { publisher.new.parts ≡ publisher.old.parts + sum_by (λ s. s.parts) shares.items }
    ensures amount { publisher.new.amount ≡ publisher.old.amount + sum_by (λ s. s.amount) shares.items }
    ensures same { (publisher.new.rules ≡ publisher.old.rules) × (publisher.new.log ≡ publisher.old.log) }
{
    for share in shares {
        publisher.gather(share);
    }
}

/// Gathers all shares, and answers how many pairs were learned.
fn gather<V: Edition<T, L>, T: Table + Drop, L: StoreName, R: Wait + Drop>(
    publisher: &mut Publisher<V, T, L, R>,
    shares: Vec<Share<L>>,
) -> u64
    requires all { publisher.old.parts + sum_by (λ s. s.parts) shares.items ≡ L.parts }
    ensures counted { result ≡ publisher.old.amount + sum_by (λ s. s.amount) shares.items }
    ensures same { (publisher.new.rules ≡ publisher.old.rules) × (publisher.new.log ≡ publisher.old.log) }
    ensures logged { result ≡ length publisher.new.log }
    ensures entries { Logged (plain publisher.new.rules) publisher.new.log }
{
    gather_all(publisher, shares);
    publisher.audit();
    publisher.log().len() as u64
}

/// What is left in the queue.
fn drain<R: Wait>(
    rt: &R,
    alloc: Global,
    posts: Posts<Miss>,
    passes: Vec<Pass<Miss>>,
) -> Result<Vec<Miss>, OutOfMemory>
    requires queue { All (IsOf posts.queue) passes.items }
    requires all { sum_by (λ p. p.parts) passes.items ≡ posts.passes }
    ensures conserves { IfOk result (λ left. Conserves passes.items left.items) }
    ensures full { OnOk result
        (All (λ p. p.met_full ≡ true → posts.queue.capacity ≤ put_count passes.items) passes.items) }
{
    match posts.drain(alloc, rt, passes) {
        Ok(left) => Ok(left),
        Err(_) => Err(OutOfMemory),
    }
}

/// Empties the queue. Where there are learners, each pair that was left is learned with the first one's share. Then
/// all shares are gathered. It answers how many pairs were learned in all: the log's length (docs/LEARNING.md, "Behind
/// the join"). The passes are all that the queue has, and the shares with the publisher's own one all of the store's;
/// they have counted what was taken, but for at most one pair of each. It fails only where memory is refused.
pub fn end_learning<
    V: Edition<T, L>,
    T: Table + Drop,
    L: StoreName,
    R: Wait + Drop,
    W: Wait,
    G: Gate,
>(
    rt: &W,
    alloc: Global,
    gate: &G,
    machine: &Arc<Machine>,
    publisher: &mut Publisher<V, T, L, R>,
    posts: Posts<Miss>,
    passes: Vec<Pass<Miss>>,
    shares: Vec<Share<L>>,
) -> Result<u64, OutOfMemory>
    requires named { arc_value machine.now ≡ L.machine }
    requires described { IsMachine (arc_value machine.now) }
    requires queue { All (IsOf posts.queue) passes.items }
    requires passes { sum_by (λ p. p.parts) passes.items ≡ posts.passes }
    requires own { (publisher.old.parts ≡ 1) × (publisher.old.amount ≡ 0) }
    requires shares { All (λ s. s.parts ≡ 1) shares.items }
    requires parts { 1 + length shares.items ≡ L.parts }
    requires counted { sum_by (λ s. s.amount) shares.items ≤ take_count passes.items }
    requires lost { take_count passes.items ≤ sum_by (λ s. s.amount) shares.items + length shares.items }
    ensures logged { IfOk result (λ n. n ≡ length publisher.new.log) }
    ensures entries { OnOk result (Logged (plain publisher.new.rules) publisher.new.log) }
    ensures published { OnOk result (IsPrefix (plain publisher.old.rules) (plain publisher.new.rules)) }
    ensures learned { IfOk result (λ n. AreLearned (length shares.items) (put_count passes.items) n) }
    ensures full { OnOk result
        (All (λ p. p.met_full ≡ true → posts.queue.capacity ≤ put_count passes.items) passes.items) }
{
    let mut shares = shares;
    let rest = drain(rt, alloc, posts, passes)?;
    learn_left(alloc, machine, publisher, &mut shares, gate, rest)?;
    Ok(gather(publisher, shares))
}

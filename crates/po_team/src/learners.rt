//! What a learner does in a turn: it takes a pair from the queue, makes its rule, and publishes it.
ghost use Rattle.std.specs.Prelude.{◌≡◌, ◌+◌, ◌<◌, Ok, OnOk, OnErr};
ghost use Rattle.std.specs.Arc.{arc_value};
ghost use Rattle.po_model.specs.Agrees.{Instance};
ghost use Rattle.po_model.specs.Holed.{rule_of};
ghost use Rattle.po_model.specs.Machines.{IsMachine};
ghost use Rattle.po_model.specs.Pairs.{pair_of, WellFormedPair};
ghost use Rattle.po_queue.specs.Passes.{HeldAt};
ghost use Rattle.po_team.specs.Seats.{HasLearned};

use crate::rule::make_rule;
use crate::taught::Taught;
use po_model::{Machine, Pair};
use po_pool::{Gate, Place, Study, Turn};
use po_queue::{Pass, Posts};
use po_rule::{Learned, Miss, Table};
use po_store::{Edition, StoreName};
use po_word::OutOfMemory;
use std::alloc::Global;
use std::sync::ledger::Share;
use std::sync::{Arc, Mutex, Wait};

/// What a learner keeps from turn to turn: its pass of the queue, its share of the count of what was learned, and
/// whether memory was refused to it (docs/LEARNING.md, "Workers and learners").
#[derive(Drop)]
pub struct LearnerSeat<L: StoreName> {
    pub pass: Pass<Miss>,
    pub share: Share<L>,
    pub refused: bool,
}

/// What all learners share: the queue, and the publisher under its lock (docs/LEARNING.md, "Workers and learners").
#[derive(Drop)]
pub struct Learners<
    'a,
    V: Edition<T, L>,
    T: Table + Drop,
    L: StoreName,
    R: Wait + Drop,
    W: Wait,
    G: Gate,
> {
    /// The queue.
    pub posts: &'a Posts<Miss>,
    taught: &'a Mutex<Taught<V, T, L, R>>,
    /// The store's machine.
    pub machine: Arc<Machine>,
    rt: &'a W,
    gate: &'a G,
    ghost named: { arc_value machine ≡ L.machine },
}

/// One turn at the publisher.
fn publish<V: Edition<T, L>, T: Table + Drop, L: StoreName, R: Wait + Drop, W: Wait>(
    alloc: Global,
    rt: &W,
    taught: &Mutex<Taught<V, T, L, R>>,
    share: &mut Share<L>,
    pair: Pair,
    learned: Learned,
) -> Result<(), OutOfMemory>
    requires part { 0 < share.old.parts }
    requires machine { learned.0 ≡ L.machine }
    requires formed { WellFormedPair (pair_of pair) }
    requires instance { Instance (rule_of learned.1) (pair_of pair) }
    ensures amount { OnOk result (share.new.amount ≡ share.old.amount + 1) }
    ensures parts { OnOk result (share.new.parts ≡ share.old.parts) }
    ensures err { OnErr result (share.new ≡ share.old) }
{
    let mut taught = taught.lock(rt);
    let taught = &mut *taught;
    taught.learn(alloc, share, pair, learned)
}

impl<
    'a,
    V: Edition<T, L>,
    T: Table + Drop,
    L: StoreName,
    R: Wait + Drop,
    W: Wait,
    G: Gate,
> Learners<'a, V, T, L, R, W, G> {
    /// Learners of this queue and this publisher, on the store's machine (docs/LEARNING.md, "Workers and learners").
    pub fn new(
        rt: &'a W,
        posts: &'a Posts<Miss>,
        taught: &'a Mutex<Taught<V, T, L, R>>,
        machine: Arc<Machine>,
        gate: &'a G,
    ) -> Learners<'a, V, T, L, R, W, G>
        requires named { arc_value machine ≡ L.machine }
        ensures machine { arc_value result.machine ≡ arc_value machine }
        ensures posts { result.posts.now ≡ posts.now }
    {
        Learners {
            posts,
            taught,
            machine,
            rt,
            gate,
        }
    }

    /// Learns a pair: its rule is made outside the lock, and published in one turn of it. The gate is told then.
    fn learn(&self, alloc: Global, share: &mut Share<L>, miss: Miss) -> Result<(), OutOfMemory>
        requires described { IsMachine (arc_value self.now.machine) }
        requires part { 0 < share.old.parts }
        ensures amount { OnOk result (share.new.amount ≡ share.old.amount + 1) }
        ensures parts { OnOk result (share.new.parts ≡ share.old.parts) }
        ensures err { OnErr result (share.new ≡ share.old) }
    {
        let pair = miss.pair();
        let learned = make_rule(alloc, &self.machine, &pair)?;
        publish(alloc, self.rt, self.taught, share, pair, learned)?;
        self.gate.at(Place::Published);
        Ok(())
    }
}

impl<
    'a,
    V: Edition<T, L> + Send + Sync,
    T: Table + Drop + Send + Sync,
    L: StoreName + Send + Sync,
    R: Wait + Drop + Send + Sync,
    W: Wait + Sync,
    G: Gate + Sync,
> Study for Learners<'a, V, T, L, R, W, G> {
    type Seat = LearnerSeat<L>;

    ghost good = { λ s place seat. IsMachine (arc_value s.machine)
        × HasLearned s.posts.now.queue seat.pass seat.share.parts seat.share.amount seat.refused };

    fn turn(
        &self,
        alloc: Global,
        seat: &mut LearnerSeat<L>,
        _place: u32,
    ) -> Result<Turn, OutOfMemory>
        requires { IsMachine (arc_value self.now.machine) × HasLearned self.now.posts.now.queue seat.old.pass
            seat.old.share.parts seat.old.share.amount seat.old.refused }
        ensures good { IsMachine (arc_value self.now.machine) × HasLearned self.now.posts.now.queue seat.new.pass
            seat.new.share.parts seat.new.share.amount seat.new.refused }
        ensures nothing { result ≡ Ok Turn.Nothing → (seat.new ≡ seat.old) × HeldAt 0 seat.old.pass }
    {
        if seat.refused {
            return Err(OutOfMemory);
        }
        let Some(miss) = self.posts.take(self.rt, &mut seat.pass) else {
            return Ok(Turn::Nothing);
        };
        seat.refused = true;
        self.learn(alloc, &mut seat.share, miss)?;
        seat.refused = false;
        Ok(Turn::Learned)
    }
}

//! The publisher, as learners share it under a lock.
ghost use Rattle.std.specs.Prelude.{◌≡◌, ◌+◌, ◌<◌, OnOk, OnErr};
ghost use Rattle.po_model.specs.Agrees.{Instance};
ghost use Rattle.po_model.specs.Holed.{rule_of};
ghost use Rattle.po_model.specs.Pairs.{pair_of, WellFormedPair};

use po_model::Pair;
use po_rule::{Learned, Table};
use po_store::{Edition, Note, Publisher, StoreName};
use po_word::OutOfMemory;
use std::alloc::Global;
use std::sync::Wait;
use std::sync::ledger::Share;

/// The publisher under a lock. Its own share of the count is one part and no amount: what is learned while threads run
/// is counted by the learners' shares (docs/LEARNING.md, "Workers and learners").
#[derive(Drop)]
pub struct Taught<V: Edition<T, L>, T: Table + Drop, L: StoreName, R: Wait + Drop> {
    publisher: Publisher<V, T, L, R>,
    ghost own: { (publisher.parts ≡ 1) × (publisher.amount ≡ 0) },
}

impl<V: Edition<T, L>, T: Table + Drop, L: StoreName, R: Wait + Drop> Taught<V, T, L, R> {
    /// The publisher, all but one part of whose share was handed out (docs/LEARNING.md, "Workers and learners").
    pub fn new(publisher: Publisher<V, T, L, R>) -> Taught<V, T, L, R>
        requires { (publisher.parts ≡ 1) × (publisher.amount ≡ 0) }
    {
        Taught { publisher }
    }

    /// Learns a pair by its rule, and publishes the rule where it is new. It fails only where memory is refused, and
    /// the share is as it was then. It may wait for readers.
    pub(crate) fn learn(
        &mut self,
        alloc: Global,
        share: &mut Share<L>,
        pair: Pair,
        learned: Learned,
    ) -> Result<(), OutOfMemory>
        requires part { 0 < share.old.parts }
        requires machine { learned.0 ≡ L.machine }
        requires formed { WellFormedPair (pair_of pair) }
        requires instance { Instance (rule_of learned.1) (pair_of pair) }
        ensures amount { OnOk result (share.new.amount ≡ share.old.amount + 1) }
        ensures parts { OnOk result (share.new.parts ≡ share.old.parts) }
        ensures err { OnErr result (share.new ≡ share.old) }
    {
        match self.publisher.learn_one(alloc, share, pair, learned) {
            Ok(_) => Ok(()),
            Err(refusal) => Err(refusal),
        }
    }

    /// Tells the published rules.
    pub(crate) fn note(&self) -> Note<L> {
        self.publisher.note()
    }

    /// The publisher, for whoever has it alone again (docs/LEARNING.md, "Workers and learners").
    pub fn into_publisher(self) -> Publisher<V, T, L, R>
        ensures { (result.parts ≡ 1) × (result.amount ≡ 0) }
    {
        let Taught { publisher } = self;
        publisher
    }
}

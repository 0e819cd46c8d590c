//! The publisher.
ghost use Rattle.std.specs.Prelude.{◌≡◌, ◌+◌, ◌<◌, [], ◌∷◌, ◌++◌, length, IfOk, OnOk, OnErr};
ghost use Rattle.po_model.specs.Pairs.{pair_of, WellFormedPair};
ghost use Rattle.po_model.specs.Holed.{rule_of};
ghost use Rattle.po_model.specs.Agrees.{Instance};
ghost use Rattle.po_store.specs.Published.{plain, AreGood, StandsAt, Publishes};
ghost use Rattle.po_store.specs.Logged.{entry, Logged};

use crate::desk::Desk;
use crate::edition::Edition;
use crate::name::StoreName;
use crate::reader::Note;
use po_model::Pair;
use po_rule::{Learned, Table};
use po_word::OutOfMemory;
use std::alloc::Global;
use std::marker::Model;
use std::sync::Wait;
use std::sync::ledger::{Book, Share};

/// A pair that was learned, and the place of its rule among the published ones (docs/LEARNING.md, "The store").
#[derive(Drop)]
pub struct Entry {
    pub pair: Pair,
    pub place: u64,
}

/// What learners share under a lock: the published table, the log of what was learned, and a count of it. Contracts
/// see the published rules, the log, and the publisher's own share of the count (docs/LEARNING.md, "The store").
#[derive(Drop)]
pub struct Publisher<V: Edition<T, L>, T: Table + Drop, L: StoreName, R: Wait + Drop> {
    desk: Desk<V, T, L, R>,
    log: Vec<Entry>,
    book: Book<L>,
    own: Share<L>,
}

impl<V: Edition<T, L>, T: Table + Drop, L: StoreName, R: Wait + Drop> Model
    for Publisher<V, T, L, R> {
    ghost use Rattle.std.specs.Prelude.{◌≡◌, List, length};
    ghost use Rattle.std.specs.Coded.{codes};
    ghost use Rattle.po_word.specs.contracts.expression.CExpr as expr;
    ghost use Rattle.po_term.specs.contracts.term.Term as plain_term;
    ghost use Rattle.po_model.specs.contracts.hole.PTerm as term;
    ghost use Rattle.po_store.specs.Published.{plain};
    ghost use Rattle.po_store.specs.Logged.{PublisherView, Logged};

    ghost Value = { PublisherView };

    ghost coded = { Prim.hlevel (codes, term.the_row.coded, plain_term.the_row.coded, expr.the_row.coded) };

    ghost view = { λ p. record { rules = p.desk; log = p.log.items; parts = p.own.parts; amount = p.own.amount } };

    ghost invariant = { λ p. Logged (plain p.desk) p.log.items × (p.book.total ≡ length p.log.items) };
}

impl<V: Edition<T, L>, T: Table + Drop, L: StoreName, R: Wait + Drop> Publisher<V, T, L, R> {
    /// A publisher that has learned nothing.
    pub(crate) fn new(
        desk: Desk<V, T, L, R>,
        log: Vec<Entry>,
        book: Book<L>,
        own: Share<L>,
    ) -> Publisher<V, T, L, R>
        requires { (desk ≡ []) × (log.items ≡ []) × (book.total ≡ 0) }
        ensures { result ≡ record { rules = []; log = []; parts = own.parts; amount = own.amount } }
    {
        Publisher {
            desk,
            log,
            book,
            own,
        }
    }

    /// A share of the count for a learner, with one part and no amount. One part stays with the publisher
    /// (docs/LEARNING.md, "The store").
    pub fn share(&mut self) -> Share<L>
        requires { 1 < self.old.parts }
        ensures share { (result.parts ≡ 1) × (result.amount ≡ 0) }
        ensures own { (self.new.parts + 1 ≡ self.old.parts) × (self.new.amount ≡ self.old.amount) }
        ensures same { (self.new.rules ≡ self.old.rules) × (self.new.log ≡ self.old.log) }
    {
        self.own.split_off(1, 0)
    }

    /// Joins a share to the publisher's own (docs/LEARNING.md, "The store").
    pub fn gather(&mut self, share: Share<L>)
        ensures parts { self.new.parts ≡ self.old.parts + share.parts }
        ensures amount { self.new.amount ≡ self.old.amount + share.amount }
        ensures same { (self.new.rules ≡ self.old.rules) × (self.new.log ≡ self.old.log) }
    {
        self.own.merge(share);
    }

    /// With every part gathered, the publisher's own amount is the log's length. It does nothing but tell a proof so
    /// (docs/LEARNING.md, "The store").
    pub fn audit(&mut self)
        ensures same { self.new ≡ self.old }
        ensures whole { self.old.parts ≡ L.parts → self.old.amount ≡ length self.old.log }
    {
        self.book.audit(&mut self.own);
    }

    /// How many pairs were learned: the log's length (docs/LEARNING.md, "The store").
    pub fn logged(&self) -> u64
        ensures { result ≡ length self.now.log }
    {
        self.log.len() as u64
    }

    /// The log, in the order of learning: each entry's rule stands at its place among the published ones and has the
    /// entry's pair as an instance, and each place of them stands in some entry (docs/LEARNING.md, "The store").
    pub fn log(&self) -> &[Entry]
        ensures is_it { result.now ≡ self.now.log }
        ensures logged { Logged (plain self.now.rules) self.now.log }
    {
        &self.log
    }

    /// The table of the published rules (docs/LEARNING.md, "The store").
    pub fn table(&self) -> &T
        ensures machine { T.machine result.now ≡ L.machine }
        ensures rules { T.rules result.now ≡ plain self.now.rules }
        ensures good { AreGood L.machine (plain self.now.rules) }
    {
        self.desk.latest().table()
    }

    /// Tells the published rules (docs/LEARNING.md, "The store").
    pub fn note(&self) -> Note<L>
        ensures { result ≡ self.now.rules }
    {
        Note::of(self.desk.latest().front())
    }

    /// Learns a pair by its rule, and answers the place of its rule among the published ones: publishes it where it is
    /// new, appends to the log, and adds 1 to the count by this share. It fails only where memory is refused, and
    /// nothing is changed then. It may wait for readers (docs/LEARNING.md, "The store").
    pub fn learn_one(
        &mut self,
        alloc: Global,
        share: &mut Share<L>,
        pair: Pair,
        learned: Learned,
    ) -> Result<u64, OutOfMemory>
        requires part { 0 < share.old.parts }
        requires machine { learned.0 ≡ L.machine }
        requires formed { WellFormedPair (pair_of pair) }
        requires instance { Instance (rule_of learned.1) (pair_of pair) }
        ensures place { IfOk result
            (λ k. StandsAt (plain self.old.rules) (rule_of learned.1) k (plain self.new.rules)) }
        ensures publishes { OnOk result
            (Publishes (plain self.old.rules) (rule_of learned.1) (plain self.new.rules)) }
        ensures log { IfOk result (λ k. self.new.log ≡ self.old.log ++ entry pair k ∷ []) }
        ensures amount { OnOk result (share.new.amount ≡ share.old.amount + 1) }
        ensures parts { OnOk result (share.new.parts ≡ share.old.parts) }
        ensures own { (self.new.parts ≡ self.old.parts) × (self.new.amount ≡ self.old.amount) }
        ensures err { OnErr result ((self.new ≡ self.old) × (share.new ≡ share.old)) }
    {
        if self.log.reserve(1).is_err() {
            return Err(OutOfMemory);
        }
        let place = self.desk.learn(alloc, learned)?;
        self.log.push_reserved(Entry { pair, place });
        self.book.add(share, 1);
        Ok(place)
    }

    /// Ends the publisher. It waits for readers that are inside (docs/LEARNING.md, "The store").
    pub fn close(self) {
        drop(self);
    }
}

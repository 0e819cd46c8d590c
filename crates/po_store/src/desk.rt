//! The version that is published, and how the next one is.
ghost use Rattle.std.specs.Prelude.{◌≡◌, IsSome, IfSome, IfOk, OnErr};
ghost use Rattle.po_model.specs.Holed.{rule_of};
ghost use Rattle.po_store.specs.Published.{plain, StandsAt};

use crate::board::Board;
use crate::edition::Edition;
use crate::history::Head;
use crate::name::StoreName;
use po_rule::{AddRefusal, Learned, Table};
use po_word::OutOfMemory;
use std::alloc::Global;
use std::marker::{Model, PhantomData};
use std::sync::Wait;

/// The version that is published, beside what shows it. Contracts see the published rules.
#[derive(Drop)]
pub struct Desk<V: Edition<T, L>, T: Table + Drop, L: StoreName, R: Wait + Drop> {
    board: Board<V, R>,
    latest: V,
    head: Head<L>,
    of: PhantomData<T>,
}

impl<V: Edition<T, L>, T: Table + Drop, L: StoreName, R: Wait + Drop> Model for Desk<V, T, L, R> {
    ghost use Rattle.std.specs.Prelude.{◌≡◌, List, IsSome, IfSome};
    ghost use Rattle.std.specs.Coded.{codes};
    ghost use Rattle.po_word.specs.contracts.expression.CExpr as expr;
    ghost use Rattle.po_model.specs.contracts.hole.PTerm as term;
    ghost use Rattle.po_model.specs.declared.rule.Rule.{Rule as OneRule};

    ghost Value = { List OneRule };

    ghost coded = { Prim.hlevel (codes, term.the_row.coded, expr.the_row.coded) };

    ghost view = { λ p. V.rules p.latest };

    ghost invariant = { λ p. IsSome p.board.writer × IfSome p.board.writer (λ w. w.desk.shown.value ≡ p.latest) };
}

impl<V: Edition<T, L>, T: Table + Drop, L: StoreName, R: Wait + Drop> Desk<V, T, L, R> {
    /// A desk that shows this version.
    pub(crate) fn new(board: Board<V, R>, latest: V, head: Head<L>) -> Desk<V, T, L, R>
        requires { IsSome board.writer × IfSome board.writer (λ w. w.desk.shown.value ≡ latest) }
        ensures { result ≡ V.rules latest }
    {
        Desk {
            board,
            latest,
            head,
            of: PhantomData,
        }
    }

    /// The version that is published.
    pub(crate) fn latest(&self) -> &V
        ensures { V.rules result.now ≡ self.now }
    {
        &self.latest
    }

    /// The place of the rule among the published ones. It is published where it is new.
    pub(crate) fn learn(&mut self, alloc: Global, learned: Learned) -> Result<u64, OutOfMemory>
        requires { learned.0 ≡ L.machine }
        ensures learned { IfOk result (λ k. StandsAt (plain self.old) (rule_of learned.1) k (plain self.new)) }
        ensures err { OnErr result (self.new ≡ self.old) }
    {
        let Desk {
            board,
            latest,
            head,
            ..
        } = self;
        let place = latest.front().len();
        match latest.grown(alloc, head, learned) {
            Ok((next, shown)) => {
                board.show(shown);
                *latest = next;
                Ok(place)
            }
            Err(refusal) => {
                // The machines agree, so it is known or memory was refused.
                let AddRefusal::Known(place) = refusal else {
                    return Err(OutOfMemory);
                };
                Ok(place as u64)
            }
        }
    }
}

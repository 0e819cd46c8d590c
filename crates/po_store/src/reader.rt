//! The readers, which wait for nobody.
ghost use Rattle.std.specs.Prelude.{◌≡◌, ◌⊎◌, MatchResult, IfOk, IfErr};
ghost use mathlib.Core.List.{IsPrefix};
ghost use Rattle.po_store.specs.Published.{plain, AreGood};

use crate::history::Front;
use crate::name::StoreName;
use crate::version::Version;
use crossbeam_utils::rule::Unruled;
use left_right::reader;
use po_rule::Table;
use std::marker::Model;

/// What the publisher tells a reader. Contracts see the rules that were published by then (docs/LEARNING.md, "The
/// store").
#[derive(Drop)]
pub struct Note<L: StoreName> {
    front: Front<L>,
}

impl<L: StoreName> Model for Note<L> {
    ghost use Rattle.std.specs.Prelude.{List};
    ghost use Rattle.std.specs.Coded.{codes};
    ghost use Rattle.po_word.specs.contracts.expression.CExpr as expr;
    ghost use Rattle.po_model.specs.contracts.hole.PTerm as term;
    ghost use Rattle.po_model.specs.declared.rule.Rule.{Rule as OneRule};

    ghost Value = { List OneRule };

    ghost coded = { Prim.hlevel (codes, term.the_row.coded, expr.the_row.coded) };

    ghost view = { λ n. n.front };
}

impl<L: StoreName> Note<L> {
    /// Tells this beginning of the history.
    pub(crate) fn of(front: Front<L>) -> Note<L>
        ensures { result ≡ front }
    {
        Note { front }
    }
}

/// A reader outside. Contracts see the rules that it has seen or was told of, the longest list of them
/// (docs/LEARNING.md, "The store").
#[derive(Drop)]
pub struct Reader<T: Table + Drop, L: StoreName> {
    /// None where no place was left for it.
    inner: Option<reader::Reader<Version<T, L>, (), Unruled>>,
    seen: Front<L>,
}

impl<T: Table + Drop, L: StoreName> Model for Reader<T, L> {
    ghost use Rattle.std.specs.Prelude.{List};
    ghost use Rattle.std.specs.Coded.{codes};
    ghost use Rattle.po_word.specs.contracts.expression.CExpr as expr;
    ghost use Rattle.po_model.specs.contracts.hole.PTerm as term;
    ghost use Rattle.po_model.specs.declared.rule.Rule.{Rule as OneRule};

    ghost Value = { List OneRule };

    ghost coded = { Prim.hlevel (codes, term.the_row.coded, expr.the_row.coded) };

    ghost view = { λ r. r.seen };
}

/// A reader inside, with the table that it reads. It is ended by `leave`. Contracts see the table's rules
/// (docs/LEARNING.md, "The store").
pub struct Snapshot<T: Table + Drop, L: StoreName> {
    reading: reader::Reading<Version<T, L>, (), Unruled>,
    seen: Front<L>,
}

impl<T: Table + Drop, L: StoreName> Model for Snapshot<T, L> {
    ghost use Rattle.std.specs.Prelude.{◌≡◌, List};
    ghost use Rattle.std.specs.Coded.{codes};
    ghost use Rattle.po_word.specs.contracts.expression.CExpr as expr;
    ghost use Rattle.po_model.specs.contracts.hole.PTerm as term;
    ghost use Rattle.po_model.specs.declared.rule.Rule.{Rule as OneRule};

    ghost Value = { List OneRule };

    ghost coded = { Prim.hlevel (codes, term.the_row.coded, expr.the_row.coded) };

    ghost view = { λ s. s.seen };

    ghost invariant = { λ s. s.reading.part.value ≡ s.seen };
}

impl<T: Table + Drop, L: StoreName> Reader<T, L> {
    /// A reader that has seen this.
    pub(crate) fn outside(
        inner: Option<reader::Reader<Version<T, L>, (), Unruled>>,
        seen: Front<L>,
    ) -> Reader<T, L>
        ensures { result ≡ seen }
    {
        Reader { inner, seen }
    }

    /// The reader when it was told the note: it has seen the longer of the two lists, which the other begins. It waits
    /// for nobody (docs/LEARNING.md, "The store").
    pub fn learn(self, note: Note<L>) -> Reader<T, L>
        ensures one { (result ≡ self) ⊎ (result ≡ note) }
        ensures seen { IsPrefix self result }
        ensures told { IsPrefix note result }
    {
        let Reader { inner, seen } = self;
        let Note { front } = note;
        Reader {
            inner,
            seen: seen.longer(&front),
        }
    }

    /// A snapshot of the table that is published, which begins with all that the reader has seen or was told of. The
    /// reader comes back as it was where it has no place or the publisher is gone. It waits for nobody and takes no
    /// memory (docs/LEARNING.md, "The store").
    pub fn enter(self) -> Result<Snapshot<T, L>, Reader<T, L>>
        ensures begins { IfOk result (λ s. IsPrefix self s) }
        ensures back { IfErr result (λ r. r ≡ self) }
    {
        let Reader { inner, seen } = self;
        let Some(inner) = inner else {
            return Err(Reader { inner: None, seen });
        };
        let reading = match inner.enter_as::<Unruled>() {
            Ok(reading) => reading,
            Err(inner) => {
                return Err(Reader {
                    inner: Some(inner),
                    seen,
                });
            }
        };
        let front = reading.get().seen();
        if !seen.begins(&front) {
            return Err(Reader {
                inner: Some(reading.leave()),
                seen,
            });
        }
        Ok(Snapshot {
            reading,
            seen: front,
        })
    }
}

impl<T: Table + Drop, L: StoreName> Snapshot<T, L> {
    /// The table: for the store's machine, of rules that are canonical and distinct (docs/LEARNING.md, "The store").
    pub fn table(&self) -> &T
        ensures machine { T.machine result.now ≡ L.machine }
        ensures rules { T.rules result.now ≡ plain self.now }
        ensures good { AreGood L.machine (plain self.now) }
    {
        self.reading.get().rules()
    }

    /// The reader outside again, which has seen the table's rules. It waits for nobody (docs/LEARNING.md, "The
    /// store").
    pub fn leave(self) -> Reader<T, L>
        ensures { result ≡ self }
    {
        let Snapshot { reading, seen } = self;
        Reader {
            inner: Some(reading.leave()),
            seen,
        }
    }
}

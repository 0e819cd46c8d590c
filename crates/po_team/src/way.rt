//! A worker's way to the published rules.
ghost use Rattle.std.specs.Prelude.{◌≡◌};
ghost use mathlib.Core.List.{IsPrefix};
ghost use Rattle.po_model.specs.Lookups.{AreCanonical};
ghost use Rattle.po_store.specs.Published.{plain};
ghost use Rattle.po_team.specs.Ways.{WayView};

use po_model::{Machine, Pair, Rule};
use po_rule::{Door, Lookup, Table};
use po_store::{Note, Reader, Snapshot, StoreName};
use po_word::OutOfMemory;
use std::alloc::Global;
use std::marker::Model;
use std::sync::Arc;

/// A reader of the store, and how often it came back without the rules. Contracts see the rules that it has seen or
/// was told of, and the count (docs/LEARNING.md, "Workers and learners").
#[derive(Drop)]
pub struct Way<T: Table + Drop, L: StoreName> {
    reader: Reader<T, L>,
    refused: u64,
}

impl<T: Table + Drop, L: StoreName> Model for Way<T, L> {
    ghost use Rattle.std.specs.Coded.{codes};
    ghost use Rattle.po_word.specs.contracts.expression.CExpr as expr;
    ghost use Rattle.po_model.specs.contracts.hole.PTerm as term;
    ghost use Rattle.po_team.specs.Ways.{WayView};

    ghost Value = { WayView };

    ghost coded = { Prim.hlevel (codes, term.the_row.coded, expr.the_row.coded) };

    ghost view = { λ w. record { seen = w.reader; refused = w.refused } };
}

/// A way whose reader is inside, with the published rules. Contracts see the rules and the count (docs/LEARNING.md,
/// "Workers and learners").
pub struct Inside<T: Table + Drop, L: StoreName> {
    snapshot: Snapshot<T, L>,
    refused: u64,
}

impl<T: Table + Drop, L: StoreName> Model for Inside<T, L> {
    ghost use Rattle.std.specs.Coded.{codes};
    ghost use Rattle.po_word.specs.contracts.expression.CExpr as expr;
    ghost use Rattle.po_model.specs.contracts.hole.PTerm as term;
    ghost use Rattle.po_team.specs.Ways.{WayView};

    ghost Value = { WayView };

    ghost coded = { Prim.hlevel (codes, term.the_row.coded, expr.the_row.coded) };

    ghost view = { λ i. record { seen = i.snapshot; refused = i.refused } };
}

impl<T: Table + Drop, L: StoreName> Way<T, L> {
    /// The way of a reader (docs/LEARNING.md, "Workers and learners").
    pub fn new(reader: Reader<T, L>) -> Way<T, L>
        ensures { result ≡ record { seen = reader; refused = 0 } }
    {
        Way { reader, refused: 0 }
    }

    /// The way when its reader was told a note.
    pub(crate) fn told(self, note: Note<L>) -> Way<T, L>
        ensures seen { IsPrefix self.seen result.seen }
        ensures told { IsPrefix note result.seen }
        ensures refused { result.refused ≡ self.refused }
    {
        let Way { reader, refused } = self;
        Way {
            reader: reader.learn(note),
            refused,
        }
    }
}

/// A way inside. The rules are canonical, as a snapshot's table has them.
fn within<T: Table + Drop, L: StoreName>(snapshot: Snapshot<T, L>, refused: u64) -> Inside<T, L>
    ensures is_it { result ≡ record { seen = snapshot; refused = refused } }
    ensures canonical { AreCanonical L.machine (plain snapshot) }
{
    snapshot.table();
    Inside { snapshot, refused }
}

impl<T: Table + Drop, L: StoreName> Lookup for Inside<T, L> {
    ghost use Rattle.po_store.specs.Published.{plain};

    ghost machine = { λ i. L.machine };

    ghost rules = { λ i. plain i.seen };

    fn machine(&self) -> &Machine {
        self.snapshot.table().machine()
    }

    fn look(&self, alloc: Global, p: &Pair) -> Result<Option<&Arc<Rule>>, OutOfMemory> {
        self.snapshot.table().look(alloc, p)
    }
}

impl<T: Table + Drop, L: StoreName> Door for Way<T, L> {
    ghost use Rattle.logbook.specs.Pages.{Book};
    ghost use Rattle.po_store.specs.Published.{plain};

    type Inside = Inside<T, L>;

    ghost Home = { Book };

    ghost machine = { λ w. L.machine };

    ghost told = { λ w. plain w.seen };

    ghost refusals = { λ w. w.refused };

    ghost home = { λ w. L.book };

    ghost inside_told = { λ i. plain i.seen };

    ghost inside_refusals = { λ i. i.refused };

    ghost inside_home = { λ i. L.book };

    fn enter(self) -> Result<Inside<T, L>, Way<T, L>> {
        let Way { reader, refused } = self;
        match reader.enter() {
            Ok(snapshot) => Ok(within(snapshot, refused)),
            Err(reader) => Err(Way {
                reader,
                refused: refused.saturating_add(1),
            }),
        }
    }

    fn leave(inside: Inside<T, L>) -> Way<T, L> {
        let Inside { snapshot, refused } = inside;
        Way {
            reader: snapshot.leave(),
            refused,
        }
    }
}

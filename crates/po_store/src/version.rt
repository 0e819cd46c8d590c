//! What is published: a table, with the beginning of the history that it has.
ghost use Rattle.std.specs.Prelude.{◌≡◌, ◌≢◌, ◌<◌, ◌^◌, All, [], ◌∷◌, ◌++◌, length, IfOk, IfErr, IfSome};
ghost use Rattle.std.specs.Arc.{arc_value};
ghost use Rattle.po_model.specs.Holed.{rule_of};
ghost use Rattle.po_model.specs.Canonical.{Canonical};
ghost use Rattle.po_rule.specs.Adding.{Added, Refused};
ghost use Rattle.po_store.specs.Published.{plain, AreGood};

use crate::edition::{Edition, Whole};
use crate::history::{Front, Head};
use crate::name::StoreName;
use left_right::Absorb;
use po_model::Rule;
use po_rule::{AddRefusal, Learned, Table};
use std::alloc::{AllocError, Global};
use std::marker::Model;
use std::sync::Arc;

/// No store comes to so many rules: a table of them has no memory.
const MOST: u64 = 1 << 62;

/// A table for the store's machine. Contracts see its rules, which are a beginning of the history.
#[derive(Drop)]
pub struct Version<T: Table + Drop, L: StoreName> {
    table: Arc<T>,
    front: Front<L>,
}

impl<T: Table + Drop, L: StoreName> Model for Version<T, L> {
    ghost use Rattle.std.specs.Prelude.{◌≡◌, List};
    ghost use Rattle.std.specs.Arc.{arc_value};
    ghost use Rattle.std.specs.Coded.{codes};
    ghost use Rattle.po_word.specs.contracts.expression.CExpr as expr;
    ghost use Rattle.po_model.specs.contracts.hole.PTerm as term;
    ghost use Rattle.po_model.specs.declared.rule.Rule.{Rule as OneRule};
    ghost use Rattle.po_store.specs.Published.{plain, AreGood};

    ghost Value = { List OneRule };

    ghost coded = { Prim.hlevel (codes, term.the_row.coded, expr.the_row.coded) };

    ghost view = { λ v. v.front };

    ghost invariant = { λ v. (T.rules (arc_value v.table) ≡ plain v.front)
        × (T.machine (arc_value v.table) ≡ L.machine)
        × AreGood L.machine (plain v.front) };
}

impl<T: Table + Drop, L: StoreName> Version<T, L> {
    /// The table without a rule, with the front that has seen none.
    pub(crate) fn first(table: Arc<T>, front: Front<L>) -> Version<T, L>
        requires machine { T.machine (arc_value table) ≡ L.machine }
        requires rules { T.rules (arc_value table) ≡ [] }
        requires front { front ≡ [] }
        ensures { result ≡ [] }
    {
        Version { table, front }
    }

    /// A copy.
    pub(crate) fn again(&self) -> Result<Version<T, L>, AllocError>
        ensures { IfOk result (λ v. v ≡ self.now) }
    {
        Ok(Version {
            table: Arc::try_clone(&self.table)?,
            front: self.front.again(),
        })
    }

    /// The front.
    pub(crate) fn seen(&self) -> Front<L>
        ensures { result ≡ self.now }
    {
        self.front.again()
    }

    /// The table.
    pub(crate) fn rules(&self) -> &T
        ensures machine { T.machine result.now ≡ L.machine }
        ensures rules { T.rules result.now ≡ plain self.now }
        ensures good { AreGood L.machine (plain self.now) }
    {
        &self.table
    }

    /// The table with the rule at its end.
    fn table_with(&self, alloc: Global, learned: Learned) -> Result<Arc<T>, AddRefusal>
        ensures machine { IfOk result (λ t. T.machine (arc_value t) ≡ L.machine) }
        ensures added { IfOk result
            (λ t. Added L.machine (plain self.now) learned.0 (rule_of learned.1) (T.rules (arc_value t))) }
        ensures refused { IfErr result (Refused L.machine (plain self.now) learned.0 (rule_of learned.1)) }
    {
        let table = match self.table.with(alloc, learned) {
            Ok(table) => table,
            Err(refusal) => return Err(refusal),
        };
        match Arc::new(alloc, table) {
            Ok(table) => Ok(table),
            Err(_) => Err(AddRefusal::OutOfMemory),
        }
    }

    /// The next version, twice, with this table. The history gets the rule.
    fn next(
        &self,
        head: &Head<L>,
        table: Arc<T>,
        second: Arc<T>,
        rule: &Rule,
    ) -> Option<(Version<T, L>, Version<T, L>)>
        requires second { arc_value second ≡ arc_value table }
        requires machine { T.machine (arc_value table) ≡ L.machine }
        requires added { Added L.machine (plain self.now) L.machine (rule_of rule.now) (T.rules (arc_value table)) }
        requires canonical { Canonical L.machine (rule_of rule.now) }
        requires room { length self.now < 2 ^ 62 }
        ensures { IfSome result (λ v. (v.0 ≡ self.now ++ rule.now ∷ []) × (v.1 ≡ v.0)) }
    {
        let mut front = self.front.again();
        if !front.add(head, rule) {
            return None;
        }
        let twin = Version {
            table: second,
            front: front.again(),
        };
        Some((Version { table, front }, twin))
    }
}

impl<T: Table + Drop, L: StoreName> Absorb<Version<T, L>> for Version<T, L> {
    type State = Version<T, L>;

    ghost state = { λ v. v };

    ghost applied = { λ v w. w };

    fn absorb_first(
        &mut self,
        operation: &Version<T, L>,
        _other: &Version<T, L>,
    ) -> Result<(), AllocError> {
        *self = operation.again()?;
        Ok(())
    }
}

impl<T: Table + Drop, L: StoreName> Whole for Version<T, L> {
    ghost use Rattle.std.specs.Prelude.{refl};

    ghost next = { λ v w. refl };

    ghost same = { λ v w e. e };
}

impl<T: Table + Drop, L: StoreName> Edition<T, L> for Version<T, L> {
    ghost rules = { λ v. v };

    fn table(&self) -> &T {
        self.rules()
    }

    fn front(&self) -> Front<L> {
        self.seen()
    }

    fn grown(
        &self,
        alloc: Global,
        head: &Head<L>,
        learned: Learned,
    ) -> Result<(Version<T, L>, Version<T, L>), AddRefusal> {
        let Ok(rule) = Arc::try_clone(learned.rule()) else {
            return Err(AddRefusal::OutOfMemory);
        };
        let table = match self.table_with(alloc, learned) {
            Ok(table) => table,
            Err(refusal) => return Err(refusal),
        };
        let Ok(second) = Arc::try_clone(&table) else {
            return Err(AddRefusal::OutOfMemory);
        };
        if self.front.len() >= MOST {
            return Err(AddRefusal::OutOfMemory);
        }
        match self.next(head, table, second, &rule) {
            Some(versions) => Ok(versions),
            None => Err(AddRefusal::OutOfMemory),
        }
    }
}

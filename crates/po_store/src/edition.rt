//! What a publisher asks of a version. A struct that keeps the writer of a `left_right` can't name `Version` at a type
//! parameter, so it has a parameter for the version, with these bounds.
ghost use Rattle.std.specs.Prelude.{◌≡◌, ◌≢◌, All, [], ◌∷◌, ◌++◌, IfOk, IfErr, List};
ghost use Rattle.po_model.specs.declared.rule.Rule.{Rule as OneRule};
ghost use Rattle.po_model.specs.Holed.{rule_of};
ghost use Rattle.po_rule.specs.Adding.{Refused};
ghost use Rattle.po_store.specs.Published.{plain, AreGood};

use crate::history::{Front, Head};
use crate::name::StoreName;
use left_right::Absorb;
use po_rule::{AddRefusal, Learned, Table};
use std::alloc::Global;

/// A value whose versions are taken whole: an operation is the next version.
pub trait Whole: Absorb<Self, State = Self> + Drop + Sized {
    ghost next: { (v : _) (w : Self) → Self.applied v w ≡ Self.state w };

    ghost same: { (v w : Self) → Self.state v ≡ Self.state w → v ≡ w };
}

/// A version of a table, for a store.
pub trait Edition<T: Table + Drop, L: StoreName>: Whole {
    ghost use Rattle.po_model.specs.declared.rule.Rule.{Rule as OneRule};

    /// The published rules.
    ghost rules: { Self → List OneRule };

    /// The table.
    fn table(&self) -> &T
        ensures machine { T.machine result.now ≡ L.machine }
        ensures rules { T.rules result.now ≡ plain (rules self.now) }
        ensures good { AreGood L.machine (plain (rules self.now)) };

    /// The beginning of the history that it has.
    fn front(&self) -> Front<L>
        ensures { result ≡ rules self.now };

    /// The next version, twice: the table with the rule at its end. The history has the rule from then on. All that
    /// memory can be refused to comes before.
    fn grown(
        &self,
        alloc: Global,
        head: &Head<L>,
        learned: Learned,
    ) -> Result<(Self, Self), AddRefusal>
        ensures first { IfOk result (λ v. rules v.0 ≡ rules self.now ++ learned.1 ∷ []) }
        ensures second { IfOk result (λ v. v.1 ≡ v.0) }
        ensures fresh { IfOk result (λ v. All (λ r. r ≢ rule_of learned.1) (plain (rules self.now))) }
        ensures refused { IfErr result (Refused L.machine (plain (rules self.now)) learned.0 (rule_of learned.1)) };
}

//! A pair that no rule was found for, on its way to who learns its rule.
ghost use Rattle.std.specs.Prelude.{◌≡◌};
ghost use Rattle.po_model.specs.Pairs.{pair_of, WellFormedPair};

use po_model::Pair;
use std::marker::Model;

/// A well-formed pair that no rule was found for (docs/LEARNING.md, "A worker's unit"). Contracts see it as the pair.
#[derive(Drop)]
pub struct Miss {
    pair: Pair,
}

impl Model for Miss {
    ghost use Rattle.std.specs.Coded.{codes};
    ghost use Rattle.po_term.specs.contracts.term.Term as term;
    ghost use Rattle.po_model.specs.declared.pair.Pair.{Pair as OnePair};
    ghost use Rattle.po_model.specs.Pairs.{pair_of, WellFormedPair};

    ghost Value = { OnePair };

    ghost coded = { Prim.hlevel (codes, term.the_row.coded) };

    ghost view = { λ m. m.pair };

    ghost invariant = { λ m. WellFormedPair (pair_of m.pair) };
}

impl Miss {
    /// The pair, of which the caller knows that it is well formed (docs/LEARNING.md, "A worker's unit").
    pub fn new(pair: Pair) -> Miss
        requires { WellFormedPair (pair_of pair) }
        ensures { result ≡ pair }
    {
        Miss { pair }
    }

    /// The pair (docs/LEARNING.md, "A worker's unit").
    pub fn pair(self) -> Pair
        ensures is_it { result ≡ self }
        ensures formed { WellFormedPair (pair_of result) }
    {
        self.pair
    }
}

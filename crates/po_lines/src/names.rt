//! The names that a reader has met so far, to find one again.

use indexmap::IndexSet;
use std::alloc::{AllocError, Global};
use std::marker::Model;

/// Names, each once, that contracts see as a list in the order in which they came.
#[derive(Drop)]
pub struct Names {
    set: IndexSet<Vec<u8>>,
}

impl Model for Names {
    ghost use Rattle.std.specs.Prelude.{List, ℕ, map};
    ghost use Rattle.std.specs.Coded.{coded_list, coded_ℕ};

    ghost Value = { List (List ℕ) };

    ghost coded = { coded_list (coded_list coded_ℕ) };

    ghost view = { λ n. map (λ k. k.items) n.set.keys };
}

impl Names {
    ghost use Rattle.std.specs.Prelude.{◌≡◌, ◌++◌, ◌∷◌, [], length, not, nat_eq, position, IfOk, OnOk, if◌then◌else◌};
    ghost use Rattle.std.specs.Cmp.Lexicographic.{pointwise};
    ghost use Rattle.po_lines.specs.NameList.{has};

    /// No name yet.
    pub fn new(alloc: Global) -> Names
        ensures { result ≡ [] }
    {
        Names {
            set: IndexSet::new(alloc),
        }
    }

    /// Whether the name is there.
    #[tactic(auto, using(crate::proofs::NameSet::any_map))]
    pub fn contains(&self, name: &[u8]) -> bool
        ensures { result ≡ has name.now self.now }
    {
        self.set.contains(name)
    }

    /// Where the name stands; None exactly where it isn't there.
    #[tactic(auto, using(crate::proofs::NameSet::place_is))]
    pub fn place(&self, name: &[u8]) -> Option<usize>
        ensures { result ≡ position (pointwise nat_eq name.now) self.now }
    {
        self.set.get_index_of(name)
    }

    /// How many there are.
    #[tactic(auto, using(crate::proofs::NameSet::length_map))]
    pub fn len(&self) -> usize
        ensures { result ≡ length self.now }
    {
        self.set.len()
    }

    /// Adds a name, if it isn't there; true exactly where it was added. Only memory can fail.
    #[tactic(auto, using(crate::proofs::NameSet::any_map, crate::proofs::NameSet::put_map))]
    pub fn insert(&mut self, alloc: Global, name: &[u8]) -> Result<bool, AllocError>
        ensures added { IfOk result (λ added. added ≡ not (has name.now self.old)) }
        ensures names { OnOk result
            (self.new ≡ (if has name.now self.old then self.old else self.old ++ name.now ∷ [])) }
    {
        let added = self.set.insert(Vec::from_slice(alloc, name)?)?;
        Ok(added)
    }
}

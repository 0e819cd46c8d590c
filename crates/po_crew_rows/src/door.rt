//! A door to a table, which refuses its first entries; and a post with a bounded room.
ghost use Rattle.std.specs.Prelude.{◌≡◌, ◌+◌, ◌≤◌, IfOk, IfErr};
ghost use Rattle.po_model.specs.Holed.{rule_of};
ghost use Rattle.po_model.specs.Lookups.{AreCanonical};
ghost use Rattle.po_model.specs.Pairs.{pair_of};
ghost use Rattle.po_table.specs.Tables.{rules_of};

use po_model::{Machine, Pair, Rule};
use po_rule::{Door, Lookup, Miss, Post, Posted};
use po_table::RuleTable;
use po_word::OutOfMemory;
use std::alloc::Global;
use std::sync::Arc;

/// A door to a table, which refuses so many entries more.
#[derive(Drop)]
pub(crate) struct Reluctant {
    pub(crate) table: RuleTable,
    pub(crate) refuses: u64,
    pub(crate) refused: u64,
}

/// The same inside.
#[derive(Drop)]
pub(crate) struct Inside {
    door: Reluctant,
}

impl Lookup for Inside {
    ghost use Rattle.po_table.specs.Tables.{rules_of};

    ghost machine = { λ i. i.door.table.0 };

    ghost rules = { λ i. rules_of i.door.table };

    fn machine(&self) -> &Machine {
        self.door.table.machine()
    }

    fn look(&self, alloc: Global, p: &Pair) -> Result<Option<&Arc<Rule>>, OutOfMemory> {
        self.door.table.find(alloc, p)
    }
}

impl Door for Reluctant {
    ghost use Rattle.po_table.specs.Tables.{rules_of};

    type Inside = Inside;

    ghost Home = { Unit {0} };

    ghost machine = { λ d. d.table.0 };

    ghost told = { λ d. rules_of d.table };

    ghost refusals = { λ d. d.refused };

    ghost home = { λ d. tt };

    ghost inside_told = { λ i. rules_of i.door.table };

    ghost inside_refusals = { λ i. i.door.refused };

    ghost inside_home = { λ i. tt };

    fn enter(self) -> Result<Inside, Reluctant> {
        let Reluctant {
            table,
            refuses,
            refused,
        } = self;
        if refuses > 0 {
            return Err(Reluctant {
                table,
                refuses: refuses - 1,
                refused: refused.saturating_add(1),
            });
        }
        let _canonical = table.machine();
        Ok(Inside {
            door: Reluctant {
                table,
                refuses,
                refused,
            },
        })
    }

    fn leave(inside: Inside) -> Reluctant {
        inside.door
    }
}

/// A post that takes so many misses, and is full from then on.
#[derive(Drop)]
pub(crate) struct Basket {
    pub(crate) room: usize,
    pub(crate) fulls: u64,
    pub(crate) taken: Vec<Pair>,
}

impl Post for Basket {
    ghost use Rattle.std.specs.Prelude.{map};
    ghost use Rattle.po_model.specs.Pairs.{pair_of};

    ghost Home = { Unit {0} };

    ghost taken = { λ b. map pair_of b.taken.items };

    ghost fulls = { λ b. b.fulls };

    ghost home = { λ b. tt };

    fn post(&mut self, miss: Miss) -> Posted {
        if self.taken.len() < self.room && self.taken.push(miss.pair()).is_ok() {
            return Posted::Taken;
        }
        self.fulls = self.fulls.saturating_add(1);
        Posted::Dropped
    }
}

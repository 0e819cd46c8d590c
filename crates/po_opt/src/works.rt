//! The briefs of all units, taken together.
ghost use Rattle.std.specs.Prelude.{◌≡◌, ◌+◌, ◌++◌, ◌∷◌, [], IfOk, OnOk};
ghost use Rattle.po_tally.specs.Tallies.{AreJoined};
ghost use Rattle.po_team.specs.Works.{taken_in, dropped_in};
ghost use Rattle.po_opt.specs.Told.{codes_in, tallies_in, misses_in};

use crate::counts::added;
use po_model::{Pair, UnitCode};
use po_tally::{Brief, Tally, join};
use po_word::{OutOfMemory, push};
use std::alloc::Global;

/// What all briefs hold together (docs/LEARNING.md, "Behind the join").
#[derive(Drop)]
pub struct Told {
    /// The units that were made, in order.
    pub codes: Vec<UnitCode>,
    /// The hits of all units, each rule once.
    pub tallies: Vec<Tally>,
    /// The misses of all units, in order.
    pub misses: Vec<Pair>,
    /// How many misses the queue took.
    pub taken: u64,
    /// How many it didn't.
    pub dropped: u64,
}

/// Puts misses behind these.
fn append(misses: &mut Vec<Pair>, others: Vec<Pair>) -> Result<(), OutOfMemory>
    ensures { OnOk result (misses.new.items ≡ misses.old.items ++ others.items) }
{
    for pair in others {
        push(misses, pair)?;
    }
    Ok(())
}

/// Puts a code behind these.
fn push_code(codes: &mut Vec<UnitCode>, code: UnitCode) -> Result<(), OutOfMemory>
    ensures { OnOk result (codes.new.items ≡ codes.old.items ++ code ∷ []) }
{
    push(codes, code)
}

impl Told {
    /// Nothing yet.
    fn new(alloc: Global) -> Told
        ensures codes { result.codes.items ≡ [] }
        ensures tallies { result.tallies.items ≡ [] }
        ensures misses { result.misses.items ≡ [] }
        ensures taken { result.taken ≡ 0 }
        ensures dropped { result.dropped ≡ 0 }
    {
        Told {
            codes: Vec::new(alloc),
            tallies: Vec::new(alloc),
            misses: Vec::new(alloc),
            taken: 0,
            dropped: 0,
        }
    }

    /// One brief more.
    fn add(&mut self, brief: Brief) -> Result<(), OutOfMemory>
        ensures codes { OnOk result (self.new.codes.items ≡ self.old.codes.items ++ brief.unit ∷ []) }
        ensures tallies { OnOk result
            (AreJoined (self.old.tallies.items ++ brief.tallies.items) self.new.tallies.items) }
        ensures misses { OnOk result (self.new.misses.items ≡ self.old.misses.items ++ brief.misses.items) }
        ensures taken { OnOk result (self.new.taken ≡ self.old.taken + brief.taken) }
        ensures dropped { OnOk result (self.new.dropped ≡ self.old.dropped + brief.dropped) }
    {
        self.taken = added(self.taken, brief.taken)?;
        self.dropped = added(self.dropped, brief.dropped)?;
        push_code(&mut self.codes, brief.unit)?;
        join(&mut self.tallies, brief.tallies)?;
        append(&mut self.misses, brief.misses)
    }
}

/// What all briefs hold together (docs/LEARNING.md, "Behind the join"). It fails only where memory is refused.
pub fn tell(alloc: Global, briefs: Vec<Brief>) -> Result<Told, OutOfMemory>
    ensures codes { IfOk result (λ t. t.codes.items ≡ codes_in briefs.items) }
    ensures tallies { IfOk result (λ t. AreJoined (tallies_in briefs.items) t.tallies.items) }
    ensures misses { IfOk result (λ t. t.misses.items ≡ misses_in briefs.items) }
    ensures taken { IfOk result (λ t. t.taken ≡ taken_in briefs.items) }
    ensures dropped { IfOk result (λ t. t.dropped ≡ dropped_in briefs.items) }
{
    let mut told = Told::new(alloc);
    for brief in briefs {
        told.add(brief)?;
    }
    Ok(told)
}

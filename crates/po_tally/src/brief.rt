//! The brief of a unit's work.
ghost use Rattle.std.specs.Prelude.{◌≡◌, ◌++◌, [], map, IfOk, OnOk};
ghost use Rattle.po_tally.specs.Briefs.{IsBriefOf, AreShort};
ghost use Rattle.po_tally.specs.Tallies.{AreJoined, tally_of};

use crate::tally::{Tally, put};
use po_crew::Work;
use po_fore::{BlockReport, Hit};
use po_model::{Pair, UnitCode};
use po_word::{OutOfMemory, push};
use std::alloc::Global;

/// What is left of a worker's work on a unit: the unit that all passes made, and its tries, each rule once
/// (docs/LEARNING.md, "A worker's brief").
#[derive(Drop)]
pub struct Brief {
    /// The unit that all passes made.
    pub unit: UnitCode,
    /// The hits of all blocks.
    pub tallies: Vec<Tally>,
    /// The misses of all blocks, in order.
    pub misses: Vec<Pair>,
    /// How many misses the post took.
    pub taken: u64,
    /// How many it dropped.
    pub dropped: u64,
}

/// The tries of some blocks.
#[derive(Drop)]
pub struct Short {
    pub tallies: Vec<Tally>,
    pub misses: Vec<Pair>,
}

/// Puts each of these hits to the tallies.
fn put_hits(tallies: &mut Vec<Tally>, hits: Vec<Hit>) -> Result<(), OutOfMemory>
    ensures { OnOk result (AreJoined (tallies.old.items ++ map tally_of hits.items) tallies.new.items) }
{
    for hit in hits {
        put(tallies, Tally { hit, more: 0 })?;
    }
    Ok(())
}

/// Puts misses behind these.
fn append(misses: &mut Vec<Pair>, others: Vec<Pair>) -> Result<(), OutOfMemory>
    ensures { OnOk result (misses.new.items ≡ misses.old.items ++ others.items) }
{
    for pair in others {
        push(misses, pair)?;
    }
    Ok(())
}

impl Short {
    /// One block more.
    fn add(&mut self, report: BlockReport) -> Result<(), OutOfMemory>
        ensures tallies { OnOk result
            (AreJoined (self.old.tallies.items ++ map tally_of report.used.items) self.new.tallies.items) }
        ensures misses { OnOk result (self.new.misses.items ≡ self.old.misses.items ++ report.misses.items) }
    {
        put_hits(&mut self.tallies, report.used)?;
        append(&mut self.misses, report.misses)
    }
}

/// The tries of these blocks.
fn short_of(alloc: Global, reports: Vec<BlockReport>) -> Result<Short, OutOfMemory>
    ensures { IfOk result (λ s. AreShort reports.items s) }
{
    let mut short = Short {
        tallies: Vec::new(alloc),
        misses: Vec::new(alloc),
    };
    for report in reports {
        short.add(report)?;
    }
    Ok(short)
}

/// The brief of a work (docs/LEARNING.md, "A worker's brief"). It fails only where memory is refused.
pub fn shorten(alloc: Global, work: Work) -> Result<Brief, OutOfMemory>
    ensures { IfOk result (λ b. IsBriefOf work b) }
{
    let Work {
        unit,
        reports,
        taken,
        dropped,
        ..
    } = work;
    let short = short_of(alloc, reports)?;
    Ok(Brief {
        unit,
        tallies: short.tallies,
        misses: short.misses,
        taken,
        dropped,
    })
}

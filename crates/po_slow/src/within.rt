//! Within one block of a code.
ghost use Rattle.std.specs.Prelude.{◌≡◌, ◌<◌, ◌+◌, ◌^◌, length, map, Some, IfOk, OnOk};
ghost use Rattle.po_model.specs.Blocks.{block_of};
ghost use Rattle.po_model.specs.Pairs.{pair_of};
ghost use Rattle.po_model.specs.Combined.{combination_of};
ghost use Rattle.po_model.specs.Scanned.{onward, pair_ready, after_try};
ghost use Rattle.po_model.specs.declared.machine.Machine.{Machine};
ghost use Rattle.po_recog.specs.Indexes.{IsIndexOf};
ghost use Rattle.po_slow.specs.States.{scan_by, within, on, cut, IsPlaced, IsFormedScan, HasPair, IsTried, StandsAs};
ghost use Rattle.po_slow.specs.Marks.{AllTrue};

use crate::block::{Stage, Standing, go_on, settle};
use crate::mark::Mark;
use crate::ready::{copy_pair, try_pair};
use po_live::LiveList;
use po_model::{Block, Machine, Outcome, Pair, Steps};
use po_recog::Index;
use po_word::OutOfMemory;
use std::alloc::Global;
use std::sync::ledger::Ledger;

/// How the scan stands in the b-th block.
pub fn stage(blocks: &[Block], lives: &LiveList, b: usize, at: Standing) -> Stage
    requires placed { IsPlaced (map block_of blocks.now) lives.now b at }
    requires formed { IsFormedScan (scan_by (map block_of blocks.now) lives.now b at) }
    ensures { StandsAs (map block_of blocks.now) lives.now b at result }
{
    if b >= blocks.len() {
        Stage::Over
    } else if at.done > 0 && at.next < blocks[b].instrs.len() {
        Stage::Ready
    } else {
        Stage::AtEnd
    }
}

/// A copy of the pair that is ready in the b-th block.
pub fn copy_within(
    alloc: Global,
    blocks: &[Block],
    lives: &LiveList,
    b: usize,
    at: Standing,
) -> Result<Pair, OutOfMemory>
    requires ready { HasPair (map block_of blocks.now) b at }
    requires placed { IsPlaced (map block_of blocks.now) lives.now b at }
    ensures { IfOk result (λ p. pair_ready (scan_by (map block_of blocks.now) lives.now b at) ≡ Some (pair_of p)) }
{
    copy_pair(alloc, &blocks[b].instrs, lives, b, at)
}

/// Cuts the b-th block to its first instructions.
pub fn cut_within(blocks: &mut [Block], b: usize, done: usize)
    requires { b < length blocks.old }
    ensures { map block_of blocks.new ≡ cut (map block_of blocks.old) b done }
{
    blocks[b].instrs.truncate(done);
}

/// On to the next pair of the b-th block, or to its end.
pub fn go_on_within(
    alloc: Global,
    blocks: &mut [Block],
    marks: &mut [Vec<Option<Mark>>],
    lives: &LiveList,
    b: usize,
    at: &mut Standing,
)
    requires block { b < length blocks.old }
    requires beside { length marks.old ≡ length blocks.old }
    requires placed { IsPlaced (map block_of blocks.old) lives.now b at.old }
    ensures place { scan_by (map block_of blocks.new) lives.now b at.new
        ≡ within (on onward) (scan_by (map block_of blocks.old) lives.now b at.old) }
    ensures placed { IsPlaced (map block_of blocks.new) lives.now b at.new }
    ensures marks { (m : Machine) → AllTrue m (map block_of blocks.old) marks.old b at.old
        → AllTrue m (map block_of blocks.new) marks.new b at.new }
{
    go_on(alloc, &mut blocks[b].instrs, &mut marks[b], lives, b, at);
}

/// On from the pair that is ready in the b-th block, by what becomes of it.
pub fn settle_within(
    alloc: Global,
    blocks: &mut [Block],
    marks: &mut [Vec<Option<Mark>>],
    lives: &LiveList,
    b: usize,
    at: &mut Standing,
    o: Outcome,
)
    requires ready { HasPair (map block_of blocks.old) b at.old }
    requires beside { length marks.old ≡ length blocks.old }
    requires placed { IsPlaced (map block_of blocks.old) lives.now b at.old }
    ensures place { scan_by (map block_of blocks.new) lives.now b at.new
        ≡ after_try (combination_of o) (scan_by (map block_of blocks.old) lives.now b at.old) }
    ensures placed { IsPlaced (map block_of blocks.new) lives.now b at.new }
    ensures marks { (m : Machine) → AllTrue m (map block_of blocks.old) marks.old b at.old
        → AllTrue m (map block_of blocks.new) marks.new b at.new }
{
    settle(
        alloc,
        &mut blocks[b].instrs,
        &mut marks[b],
        lives,
        b,
        at,
        o,
        None,
    );
}

/// Tries the pair that is ready in the b-th block, and goes on from it. A step is counted.
pub fn try_within<L: Ledger>(
    alloc: Global,
    m: &Machine,
    index: &Index,
    blocks: &mut [Block],
    marks: &mut [Vec<Option<Mark>>],
    lives: &LiveList,
    b: usize,
    at: &mut Standing,
    steps: &mut Steps<L>,
) -> Result<(), OutOfMemory>
    requires entries { length m.now.entries < 2 ^ 32 }
    requires index { IsIndexOf m.now index.now }
    requires ready { HasPair (map block_of blocks.old) b at.old }
    requires beside { length marks.old ≡ length blocks.old }
    requires placed { IsPlaced (map block_of blocks.old) lives.now b at.old }
    requires marks { AllTrue m.now (map block_of blocks.old) marks.old b at.old }
    ensures tried { OnOk result (IsTried m.now (scan_by (map block_of blocks.old) lives.now b at.old)
        (scan_by (map block_of blocks.new) lives.now b at.new)) }
    ensures placed { IsPlaced (map block_of blocks.new) lives.now b at.new }
    ensures marks { OnOk result (AllTrue m.now (map block_of blocks.new) marks.new b at.new) }
    ensures counted { OnOk result (steps.new ≡ steps.old + 1) }
{
    try_pair(
        alloc,
        m,
        index,
        &mut blocks[b].instrs,
        &mut marks[b],
        lives,
        b,
        at,
        steps,
    )
}

//! Where the scan of a code stands.
ghost use Rattle.std.specs.Prelude.{◌≡◌, ◌<◌, ◌+◌, ◌↔◌, length, true, IsTrue, IfOk, OnOk, OnErr};
ghost use Rattle.po_model.specs.Blocks.{code_of};
ghost use Rattle.po_model.specs.Combined.{combination_of};
ghost use Rattle.po_model.specs.declared.machine.Machine.{Machine};
ghost use Rattle.po_model.specs.Machines.{IsMachine};
ghost use Rattle.po_model.specs.Scanned.{Finished, IsPassStart, IsAtEnd, AfterEnd, pair_ready, after_try};
ghost use Rattle.po_recog.specs.Indexes.{IsIndexOf};
ghost use Rattle.po_slow.specs.States.{scan_of, enter_at, Asks, CanAnswer, StandsAs, HasPair, IsFinished, IsCut};
ghost use Rattle.po_slow.specs.States.{IsPlaced, IsTried, IsFormedState};
ghost use Rattle.po_slow.specs.Marks.{AreMarked};
ghost use Rattle.po_model.specs.UnitCodes.{IsFormedCode};

use crate::block::{Stage, Standing};
use crate::mark::{Mark, no_marks};
use crate::within::{copy_within, cut_within, go_on_within, settle_within, stage, try_within};
use po_live::{LiveList, live_list};
use po_model::{Code, Machine, Outcome, Pair, Steps};
use po_recog::Index;
use po_word::OutOfMemory;
use std::alloc::Global;
use std::sync::ledger::Ledger;

/// What a scan asks for.
#[derive(Drop)]
pub enum Ask {
    /// What becomes of this pair.
    Pair(Pair),
    /// To go on to the next block.
    BlockEnd,
    /// Nothing any more: the scan is at its finish.
    Finished,
}

/// The start of a block in a pass that has changed nothing.
const START: Standing = Standing {
    done: 0,
    next: 0,
    changed: false,
};

/// Where the scan of a code stands (docs/OPTIMISER.md, "The scan"). Contracts see it as that place, by `scan_of`.
#[derive(Drop)]
pub struct ScanState {
    code: Code,
    lives: LiveList,
    marks: Vec<Vec<Option<Mark>>>,
    block: usize,
    at: Standing,
}

impl ScanState {
    /// The start of the first pass over a code (docs/OPTIMISER.md, "The scan"), or want of memory. The code's
    /// instructions are well formed, and a control transfer stands only in the last one of a block.
    pub fn new(alloc: Global, code: Code) -> Result<ScanState, OutOfMemory>
        requires { IsFormedCode (code_of code) }
        ensures starts { IfOk result (λ s. IsPassStart (code_of code) (scan_of s)) }
        ensures formed { IfOk result IsFormedState }
        ensures marks { IfOk result (λ s. (m : Machine) → AreMarked m s) }
    {
        let lives = live_list(alloc, &code)?;
        let marks = no_marks(alloc, &code.blocks)?;
        let mut s = ScanState {
            code,
            lives,
            marks,
            block: 0,
            at: START,
        };
        s.enter(alloc);
        Ok(s)
    }

    /// What the scan asks for (docs/OPTIMISER.md, "The scan"), or want of memory: a pair is a copy.
    pub fn ask(&self, alloc: Global) -> Result<Ask, OutOfMemory>
        requires { IsFormedState self.now }
        ensures { IfOk result (Asks (scan_of self.now)) }
    {
        match self.stage() {
            Stage::Ready => Ok(Ask::Pair(self.pair(alloc)?)),
            Stage::AtEnd => Ok(Ask::BlockEnd),
            Stage::Over => Ok(Ask::Finished),
        }
    }

    /// From the end of a block to the next one, to the next pass or to the finish (docs/OPTIMISER.md, "The scan"). It
    /// is called only where the scan is at the end of a block. Where memory is wanting, the scan stays where it is.
    pub fn next_block(&mut self, alloc: Global) -> Result<(), OutOfMemory>
        requires formed { IsFormedState self.old }
        requires at_end { IsAtEnd (scan_of self.old) }
        ensures goes_on { OnOk result (AfterEnd (scan_of self.old) (scan_of self.new)) }
        ensures unchanged { OnErr result (scan_of self.new ≡ scan_of self.old) }
        ensures formed { IsFormedState self.new }
        ensures marks { OnOk result ((m : Machine) → AreMarked m self.old → AreMarked m self.new) }
    {
        self.close();
        self.leave(alloc)
    }

    /// The code that all passes made (docs/OPTIMISER.md, "The scan"), at the finish.
    pub fn code(self) -> Code
        requires formed { IsFormedState self }
        requires finished { IsFinished (scan_of self) }
        ensures { scan_of self ≡ Finished (code_of result) }
    {
        self.code
    }

    /// Whether all passes are made (docs/OPTIMISER.md, "The scan"). It takes no memory.
    pub fn is_finished(&self) -> bool
        requires { IsFormedState self.now }
        ensures { IsTrue result ↔ IsFinished (scan_of self.now) }
    {
        self.block >= self.code.blocks.len()
    }

    /// How the scan stands.
    pub(crate) fn stage(&self) -> Stage
        requires { IsFormedState self.now }
        ensures { StandsAs (code_of self.now.code) self.now.lives self.now.block self.now.at result }
    {
        stage(&self.code.blocks, &self.lives, self.block, self.at)
    }

    /// A copy of the pair that is ready.
    fn pair(&self, alloc: Global) -> Result<Pair, OutOfMemory>
        requires formed { IsFormedState self.now }
        requires ready { HasPair (code_of self.now.code) self.now.block self.now.at }
        ensures { IfOk result (λ p. Asks (scan_of self.now) (Ask.Pair p)) }
    {
        copy_within(alloc, &self.code.blocks, &self.lives, self.block, self.at)
    }

    /// Into the block that is next, where there is one.
    fn enter(&mut self, alloc: Global)
        requires placed { IsPlaced (code_of self.old.code) self.old.lives self.old.block self.old.at }
        requires start { (self.old.at.done ≡ 0) × (self.old.at.next ≡ 0) }
        requires beside { length self.old.marks.items ≡ length (code_of self.old.code) }
        ensures scan { scan_of self.new
            ≡ enter_at (code_of self.old.code) self.old.lives self.old.block self.old.at.changed }
        ensures placed { IsPlaced (code_of self.new.code) self.new.lives self.new.block self.new.at }
        ensures beside { length self.new.marks.items ≡ length (code_of self.new.code) }
        ensures marks { (m : Machine) → AreMarked m self.old → AreMarked m self.new }
    {
        let ScanState {
            code,
            lives,
            marks,
            block,
            at,
        } = self;
        if *block < code.blocks.len() {
            go_on_within(alloc, &mut code.blocks, marks, lives, *block, at);
        }
    }

    /// Cuts the block that is at its end to what is done.
    fn close(&mut self)
        requires formed { IsFormedState self.old }
        requires at_end { IsAtEnd (scan_of self.old) }
        ensures same { scan_of self.new ≡ scan_of self.old }
        ensures formed { IsFormedState self.new }
        ensures closed { IsCut (code_of self.new.code) self.new.block self.new.at }
        ensures marks { (m : Machine) → AreMarked m self.old → AreMarked m self.new }
    {
        let ScanState {
            code,
            lives: _,
            marks: _,
            block,
            at,
        } = self;
        cut_within(&mut code.blocks, *block, at.done);
        at.next = at.done;
    }

    /// On from a block that is cut to what is done.
    fn leave(&mut self, alloc: Global) -> Result<(), OutOfMemory>
        requires formed { IsFormedState self.old }
        requires closed { IsCut (code_of self.old.code) self.old.block self.old.at }
        ensures goes_on { OnOk result (AfterEnd (scan_of self.old) (scan_of self.new)) }
        ensures unchanged { OnErr result (scan_of self.new ≡ scan_of self.old) }
        ensures formed { IsFormedState self.new }
        ensures marks { OnOk result ((m : Machine) → AreMarked m self.old → AreMarked m self.new) }
    {
        if self.at.changed && self.block + 1 == self.code.blocks.len() {
            self.start_pass(alloc)
        } else {
            self.enter_next(alloc);
            Ok(())
        }
    }

    /// Into the next block, or to the finish where there is none.
    fn enter_next(&mut self, alloc: Global)
        requires formed { IsFormedState self.old }
        requires closed { IsCut (code_of self.old.code) self.old.block self.old.at }
        requires same_pass { self.old.at.changed ≡ true → self.old.block + 1 < length (code_of self.old.code) }
        ensures goes_on { AfterEnd (scan_of self.old) (scan_of self.new) }
        ensures formed { IsFormedState self.new }
        ensures marks { (m : Machine) → AreMarked m self.old → AreMarked m self.new }
    {
        self.block += 1;
        self.at.done = 0;
        self.at.next = 0;
        self.enter(alloc);
    }

    /// Into the first block, in one pass more.
    fn start_pass(&mut self, alloc: Global) -> Result<(), OutOfMemory>
        requires formed { IsFormedState self.old }
        requires closed { IsCut (code_of self.old.code) self.old.block self.old.at }
        requires last { self.old.block + 1 ≡ length (code_of self.old.code) }
        requires changed { self.old.at.changed ≡ true }
        ensures goes_on { OnOk result (AfterEnd (scan_of self.old) (scan_of self.new)) }
        ensures unchanged { OnErr result (scan_of self.new ≡ scan_of self.old) }
        ensures formed { IsFormedState self.new }
        ensures marks { OnOk result ((m : Machine) → AreMarked m self.old → AreMarked m self.new) }
    {
        self.lives = live_list(alloc, &self.code)?;
        self.block = 0;
        self.at = START;
        self.enter(alloc);
        Ok(())
    }

    /// On from the pair that is ready, by what becomes of it.
    fn settle(&mut self, alloc: Global, o: Outcome)
        requires formed { IsFormedState self.old }
        requires ready { HasPair (code_of self.old.code) self.old.block self.old.at }
        requires answer { CanAnswer (pair_ready (scan_of self.old)) (combination_of o) }
        ensures goes_on { scan_of self.new ≡ after_try (combination_of o) (scan_of self.old) }
        ensures formed { IsFormedState self.new }
    {
        let ScanState {
            code,
            lives,
            marks,
            block,
            at,
        } = self;
        settle_within(alloc, &mut code.blocks, marks, lives, *block, at, o);
    }

    /// Tries the pair that is ready, and goes on from it. A step is counted.
    pub(crate) fn try_pair<L: Ledger>(
        &mut self,
        alloc: Global,
        m: &Machine,
        index: &Index,
        steps: &mut Steps<L>,
    ) -> Result<(), OutOfMemory>
        requires machine { IsMachine m.now }
        requires index { IsIndexOf m.now index.now }
        requires formed { IsFormedState self.old }
        requires ready { HasPair (code_of self.old.code) self.old.block self.old.at }
        requires marks { AreMarked m.now self.old }
        ensures tried { OnOk result (IsTried m.now (scan_of self.old) (scan_of self.new)) }
        ensures formed { OnOk result (IsFormedState self.new) }
        ensures marks { OnOk result (AreMarked m.now self.new) }
        ensures counted { OnOk result (steps.new ≡ steps.old + 1) }
    {
        let ScanState {
            code,
            lives,
            marks,
            block,
            at,
        } = self;
        try_within(
            alloc,
            m,
            index,
            &mut code.blocks,
            marks,
            lives,
            *block,
            at,
            steps,
        )
    }
}

/// On from the pair that is ready, by what becomes of it (docs/OPTIMISER.md, "The scan"). It is called only where a
/// pair is ready. Where `o` is one instruction, that is well formed, and has a control transfer only where the pair's
/// second instruction has one. What goes stays in the block's memory until the block's end. Where memory is wanting,
/// the scan stays where it is.
pub fn scan_step(alloc: Global, s: &mut ScanState, o: Outcome) -> Result<(), OutOfMemory>
    requires formed { IsFormedState s.old }
    requires answer { CanAnswer (pair_ready (scan_of s.old)) (combination_of o) }
    ensures goes_on { OnOk result (scan_of s.new ≡ after_try (combination_of o) (scan_of s.old)) }
    ensures unchanged { OnErr result (scan_of s.new ≡ scan_of s.old) }
    ensures formed { IsFormedState s.new }
{
    s.settle(alloc, o);
    Ok(())
}

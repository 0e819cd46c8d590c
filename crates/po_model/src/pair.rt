//! Two instructions that may become one.

use po_term::{Instr, Reg};
use std::collections::BTreeSet;

/// What is live at a place: registers, and whether `cc` is (docs/OPTIMISER.md, "Combination").
#[derive(Drop)]
pub struct Live {
    pub regs: BTreeSet<Reg>,
    pub cc: bool,
}

/// Two instructions, one after the other, and which of the registers that they set, and whether `cc`, is live after
/// the second (docs/OPTIMISER.md, "Combination").
#[derive(Drop)]
pub struct Pair {
    pub a: Instr,
    pub b: Instr,
    pub live: Live,
}

/// What becomes of a pair (docs/OPTIMISER.md, "Combination").
#[derive(Drop)]
pub enum Outcome {
    /// Both stay.
    Keep,
    /// Both go.
    Nothing,
    /// One instruction stands in their place.
    One(Instr),
}

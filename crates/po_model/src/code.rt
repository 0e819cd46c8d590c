//! The code of a unit.

use po_name::Name;
use po_term::{Instr, Label};

/// A block: the label that names it, where it has one, and its instructions. A control transfer stands only in the
/// last one (docs/LANGUAGE.md, "Naive code").
#[derive(Drop)]
pub struct Block {
    pub label: Option<Label>,
    pub instrs: Vec<Instr>,
}

/// Blocks, in order (docs/LANGUAGE.md, "Naive code").
#[derive(Drop)]
pub struct Code {
    pub blocks: Vec<Block>,
}

/// A unit's code (docs/LANGUAGE.md, "Naive code"), with the names of its labels (in the order of `lab`) and of its
/// symbols (by first occurrence).
#[derive(Drop)]
pub struct UnitCode {
    pub name: Name,
    pub labels: Vec<Name>,
    pub syms: Vec<Name>,
    pub code: Code,
}

//! What stands between two operations.

use po_model::Block;
use po_term::{Instr, Label};

/// Room for the instructions of most blocks.
pub const ROOM: usize = 16;

/// What stands between two operations: the blocks that have ended, the label and the instructions of the one that has
/// begun, the registers on the stack, the top last, and the number of the next register.
#[derive(Drop)]
pub struct Expansion {
    pub ended: Vec<Block>,
    pub label: Option<Label>,
    pub instrs: Vec<Instr>,
    pub stack: Vec<u32>,
    pub next: u32,
}

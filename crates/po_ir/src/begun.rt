//! A unit that has begun.

use crate::unit::{Jump, Op};
use po_lines::Names;
use po_name::Name;
use sqlite_items::Items;

/// A unit that has begun: its name, its operations and jumps so far, and what these say of the next one.
#[derive(Drop)]
pub struct Begun {
    pub name: Name,
    pub ops: Items<Op>,
    pub jumps: Items<Jump>,
    pub labels: Names,
    /// The arguments that were set in this block.
    pub args: Items<u8>,
    /// The values on the stack.
    pub depth: u32,
    /// Whether the last operation leaves.
    pub ended: bool,
}

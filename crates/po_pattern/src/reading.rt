//! What was read of a term so far.

use crate::cursor::Parsed;
use crate::part::{Frame, Turn};
use sqlite_items::Items;

/// What was read of a term so far: the frames that are open, the innermost last, and the last part.
#[derive(Drop)]
pub struct Reading<'a> {
    pub frames: Items<Frame>,
    pub turn: Parsed<'a, Turn>,
}

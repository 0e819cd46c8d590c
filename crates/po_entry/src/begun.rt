//! A template that has begun.

use po_model::Piece;
use sqlite_items::Items;

/// A mark `%`, `#`, `@`, `&` and its column.
#[derive(Clone, Copy, Debug)]
pub struct Mark {
    pub byte: u8,
    pub column: u32,
}

/// What was read of a template so far: its pieces, and the mark that waits for the byte behind it.
#[derive(Debug, Drop)]
pub struct Begun {
    pub pieces: Items<Piece>,
    pub waiting: Option<Mark>,
}

//! The parts of a term while it is read.

use po_model::PatTerm;
use po_word::{Bin, Un};

/// A whole part within the limits of a term, 64 nodes and a depth of 16, with its number of nodes and its depth.
#[derive(Debug, Drop)]
pub struct Part {
    pub term: PatTerm,
    pub size: u32,
    pub depth: u32,
}

/// A part that has begun, and what was read of it. A whole part beyond the limits is none.
#[derive(Debug, Drop)]
pub enum Frame {
    /// `M[`
    Memory,
    /// `neg(` or `not(`
    Unary(Un),
    /// `(`
    Left,
    /// `(t op`
    Right(Bin, Option<Part>),
}

/// What was read last: the beginning of a part, or the end of a whole one.
#[derive(Debug, Drop)]
pub enum Turn {
    Opens(Frame),
    Whole(Option<Part>),
}

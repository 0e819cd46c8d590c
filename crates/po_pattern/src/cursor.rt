//! A place of a line, and what was read from there on.

ghost use Rattle.std.specs.Prelude.{◌≤◌, ◌+◌, length};

use crate::operands::Operands;

/// What is left of a line from a place on, and the column of its first byte, counted in bytes from 1. At the line's
/// end no byte is left, and the column is the one behind the last byte. A line has at most 4,096 bytes
/// (docs/LANGUAGE.md, "Lines").
#[derive(Clone, Copy, Debug)]
pub struct Cursor<'a> {
    pub column: u32,
    pub bytes: &'a [u8],
    pub ghost within: { column + length bytes.now ≤ 4097 },
}

/// What was read, the place behind it, and the operands seen so far.
#[derive(Debug, Drop)]
pub struct Parsed<'a, T> {
    pub value: T,
    pub rest: Cursor<'a>,
    pub seen: Operands,
}

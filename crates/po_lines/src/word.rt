//! A word of a line.

ghost use Rattle.std.specs.Prelude.{◌≤◌};

/// A word of a line, and the column of its first byte, counted in bytes from 1 (docs/LANGUAGE.md, "Lines").
#[derive(Clone, Copy, Debug)]
pub struct Word<'a> {
    pub column: u32,
    pub bytes: &'a [u8],
    pub ghost within: { column ≤ 4096 },
}

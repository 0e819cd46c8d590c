//! A line of a text.

ghost use Rattle.std.specs.Prelude.{◌+◌, ◌<◌, ◌^◌};

/// A line of a text: its bytes without its line feed and without a carriage return right before that, its number,
/// counted from 1, and the offset in the text of the byte behind its line feed, or the text's length.
#[derive(Clone, Copy, Debug)]
pub struct Line<'a> {
    pub bytes: &'a [u8],
    pub number: u32,
    pub after: usize,
    pub ghost counted: { number + 1 < 2 ^ 32 },
}

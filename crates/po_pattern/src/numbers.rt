//! A number where it stands in a line.

ghost use Rattle.std.specs.Prelude.{◌≡◌, ◌≤◌, length};
ghost use Rattle.po_lines.specs.Faults.{Tells};
ghost use Rattle.po_pattern.specs.Rests.{rest_of, read_of};
ghost use Rattle.po_pattern.specs.Parts as parts;

use crate::cursor::{Cursor, Parsed};
use crate::operands::Operands;
use crate::places::{behind, digit_length};
use po_lines::{LineFault, Word, signed_number};
use po_text::Kind;

/// A number from -2147483648 to 2147483647, an optional `-` and 1 to 10 digits. What isn't one is Word, and a number
/// outside these bounds is Number, each at its first byte (docs/PROGRAM.md, "Faults of the text").
#[tactic(auto, unfolding(crate::specs::Parts::number))]
pub fn number<'a>(cursor: Cursor<'a>, seen: Operands) -> Result<Parsed<'a, i32>, LineFault>
    ensures { Tells read_of result (parts.number (rest_of cursor.entry) seen) }
{
    let length = number_length(cursor.bytes);
    let value = number_at(cursor, length)?;
    Ok(Parsed {
        value,
        rest: behind(cursor, length),
        seen,
    })
}

/// The bytes of the number that stands first: an optional `-` and digits.
fn number_length(bytes: &[u8]) -> usize
    ensures value { result ≡ parts.number_length bytes.now }
    ensures within { result ≤ length bytes.now }
{
    match bytes {
        [] => 0,
        [b'-', digits @ ..] => 1 + digit_length(digits),
        _ => digit_length(bytes),
    }
}

/// The number that so many bytes are.
#[tactic(auto, unfolding(crate::specs::Parts::number_at))]
fn number_at(cursor: Cursor, count: usize) -> Result<i32, LineFault>
    requires { count ≤ length cursor.bytes.now }
    ensures { Tells (λ n. n) result (parts.number_at (rest_of cursor.entry) count) }
{
    match cursor.bytes {
        [] => Err(LineFault::at(cursor.column, Kind::Word)),
        _ => signed_number(&Word {
            column: cursor.column,
            bytes: &cursor.bytes[..count],
        }),
    }
}

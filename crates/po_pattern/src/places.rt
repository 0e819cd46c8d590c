//! Going on in a line.

ghost use Rattle.std.specs.Prelude.{◌≡◌, ◌≤◌, ◌+◌, length};
ghost use Rattle.std.specs.List.{prefix_len};
ghost use Rattle.po_text.specs.Words.{is_blank};
ghost use Rattle.po_name.specs.Names.{is_digit, is_name_byte};
ghost use Rattle.po_lines.specs.Faults.{Tells};
ghost use Rattle.po_pattern.specs.Rests as rests;
ghost use Rattle.po_pattern.specs.Rests.{rest_of};

use crate::cursor::Cursor;
use po_lines::LineFault;
use po_text::Kind;

/// The beginning of a line, which has at most 4,096 bytes.
pub fn start(line: &[u8]) -> Cursor
    requires { length line.now ≤ 4096 }
    ensures { rest_of result ≡ record { column = 1; bytes = line.now } }
{
    Cursor {
        column: 1,
        bytes: line,
    }
}

/// The place behind so many of the bytes that are left; `count` is at most their number.
pub fn behind(cursor: Cursor, count: usize) -> Cursor
    requires { count ≤ length cursor.bytes.now }
    ensures { rest_of result ≡ rests.behind count (rest_of cursor.entry) }
{
    Cursor {
        column: cursor.column + count as u32,
        bytes: &cursor.bytes[count..],
    }
}

/// The place behind the spaces and tabs that stand here.
#[tactic(auto, unfolding(crate::specs::Rests::skip_blanks))]
pub fn skip_blanks(cursor: Cursor) -> Cursor
    ensures { rest_of result ≡ rests.skip_blanks (rest_of cursor.entry) }
{
    behind(cursor, blank_length(cursor.bytes))
}

/// How many spaces and tabs stand first.
pub fn blank_length(bytes: &[u8]) -> usize
    ensures value { result ≡ prefix_len is_blank bytes.now }
    ensures within { result ≤ length bytes.now }
{
    bytes
        .iter()
        .take_while(|byte| is_blank_byte(**byte))
        .count()
}

/// How many decimal digits stand first.
pub fn digit_length(bytes: &[u8]) -> usize
    ensures value { result ≡ prefix_len is_digit bytes.now }
    ensures within { result ≤ length bytes.now }
{
    bytes
        .iter()
        .take_while(|byte| is_digit_byte(**byte))
        .count()
}

/// How many letters, digits and `_` stand first.
pub fn name_length(bytes: &[u8]) -> usize
    ensures value { result ≡ prefix_len is_name_byte bytes.now }
    ensures within { result ≤ length bytes.now }
{
    bytes
        .iter()
        .take_while(|byte| is_name_letter(**byte))
        .count()
}

/// A space or a tab.
fn is_blank_byte(byte: u8) -> bool
    ensures { result ≡ is_blank byte }
{
    byte == b' ' || byte == b'\t'
}

/// A decimal digit.
pub fn is_digit_byte(byte: u8) -> bool
    ensures { result ≡ is_digit byte }
{
    byte.is_ascii_digit()
}

/// A letter, a digit or `_`.
fn is_name_letter(byte: u8) -> bool
    ensures { result ≡ is_name_byte byte }
{
    matches!(byte, b'a'..=b'z' | b'A'..=b'Z' | b'0'..=b'9' | b'_')
}

/// This byte has to stand here; the place behind it. Another byte, or the line's end, is Word here.
#[tactic(auto, unfolding(crate::specs::Rests::mark))]
pub fn mark<'a>(cursor: Cursor<'a>, byte: u8) -> Result<Cursor<'a>, LineFault>
    ensures { Tells rest_of result (rests.mark byte (rest_of cursor.entry)) }
{
    if begins(cursor.bytes, byte) {
        Ok(behind(cursor, 1))
    } else {
        Err(LineFault::at(cursor.column, Kind::Word))
    }
}

/// Whether the first byte is this one.
pub fn begins(bytes: &[u8], byte: u8) -> bool
    ensures { result ≡ rests.begins byte bytes.now }
{
    match bytes {
        [] => false,
        [first, ..] => *first == byte,
    }
}

//! A word as a name.

ghost use Rattle.std.specs.Prelude.{◌≡◌};
ghost use Rattle.std.specs.List.{list_all};
ghost use Rattle.po_name.specs.Names.{begins_name, is_name_byte};
ghost use Rattle.po_lines.specs.Faults.{Gives};
ghost use Rattle.po_lines.specs.Leaves.{is_name_text, name_in};
ghost use Rattle.po_lines.specs.Words.{seen};

use crate::fault::{LineError, fault_at};
use crate::word::Word;
use po_name::Name;
use po_text::Kind;
use std::alloc::Global;

/// The word as a name (docs/LANGUAGE.md, "Names"). A name that is only too long is TooMany at its byte 65, and any
/// other word that is no name is Word at its first byte.
#[tactic(auto, unfolding(crate::specs::Leaves::name_in))]
pub fn name(alloc: Global, word: &Word) -> Result<Name, LineError>
    ensures { Gives (λ n. n) result (name_in (seen word.now)) }
{
    if let Some(name) = Name::new(alloc, word.bytes)? {
        return Ok(name);
    }
    if is_name_like(word.bytes) {
        return Err(fault_at(word.column + 64, Kind::TooMany));
    }
    Err(fault_at(word.column, Kind::Word))
}

/// Whether only the length may keep these bytes from being a name.
fn is_name_like(bytes: &[u8]) -> bool
    ensures { result ≡ is_name_text bytes.now }
{
    begins_like_name(bytes) && has_name_letters(bytes)
}

/// Whether each byte is a letter, a digit or `_`.
fn has_name_letters(bytes: &[u8]) -> bool
    ensures { result ≡ list_all is_name_byte bytes.now }
{
    bytes.iter().all(|byte| is_name_letter(*byte))
}

/// Whether there is a first byte, which is no digit.
fn begins_like_name(bytes: &[u8]) -> bool
    ensures { result ≡ begins_name bytes.now }
{
    match bytes {
        [] => false,
        [first, ..] => !first.is_ascii_digit(),
    }
}

/// Whether this is a letter, a digit or `_`.
fn is_name_letter(byte: u8) -> bool
    ensures { result ≡ is_name_byte byte }
{
    matches!(byte, b'a'..=b'z' | b'A'..=b'Z' | b'0'..=b'9' | b'_')
}

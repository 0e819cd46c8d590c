//! The words of an entry's line, which stand between blanks.

ghost use Rattle.std.specs.Prelude.{◌≡◌, ◌≤◌, length};
ghost use Rattle.std.specs.List.{prefix_len};
ghost use Rattle.po_lines.specs.Faults.{Tells};
ghost use Rattle.po_pattern.specs.Rests.{rest_of, read_of};
ghost use Rattle.po_entry.specs.Words as words;

use po_lines::{LineFault, same_text};
use po_pattern::{Cursor, Parsed, behind, skip_blanks};
use po_text::Kind;

/// Whether a byte may stand in a word: it is no blank.
fn is_word_byte(byte: u8) -> bool
    ensures { result ≡ words.is_word_byte byte }
{
    byte != b' ' && byte != b'\t'
}

/// How many bytes the word here has.
fn word_length(bytes: &[u8]) -> usize
    ensures value { result ≡ prefix_len words.is_word_byte bytes.now }
    ensures within { result ≤ length bytes.now }
{
    bytes.iter().take_while(|byte| is_word_byte(**byte)).count()
}

/// The bytes up to the next blank or the line's end.
#[tactic(auto, unfolding(crate::specs::Words::word_here))]
pub fn word_here<'a>(at: Cursor<'a>) -> &'a [u8]
    ensures { result.now ≡ words.word_here (rest_of at.entry) }
{
    &at.bytes[..word_length(at.bytes)]
}

/// Whether this word stands here.
pub fn says(at: Cursor, text: &[u8]) -> bool
    ensures { result ≡ words.says text.now (rest_of at.entry) }
{
    same_text(word_here(at), text)
}

/// The place right behind the word here.
#[tactic(auto, unfolding(crate::specs::Words::after_word))]
pub fn after_word(at: Cursor) -> Cursor
    ensures { rest_of result ≡ words.after_word (rest_of at.entry) }
{
    behind(at, word_length(at.bytes))
}

/// The place behind the word here and the blanks behind it.
pub fn behind_word(at: Cursor) -> Cursor
    ensures { rest_of result ≡ words.behind_word (rest_of at.entry) }
{
    skip_blanks(after_word(at))
}

/// This keyword has to stand here; the place of what follows it. Any other word is Word at its first byte.
#[tactic(auto, unfolding(crate::specs::Words::keyword))]
pub fn keyword<'a>(at: Cursor<'a>, text: &[u8]) -> Result<Cursor<'a>, LineFault>
    ensures { Tells rest_of result (words.keyword text.now (rest_of at.entry)) }
{
    if says(at, text) {
        Ok(behind_word(at))
    } else {
        Err(LineFault::at(at.column, Kind::Word))
    }
}

/// Whether a blank or the line's end stands here.
fn ends_word(bytes: &[u8]) -> bool
    ensures { result ≡ words.ends_word bytes.now }
{
    match bytes {
        [] => true,
        [first, ..] => !is_word_byte(*first),
    }
}

/// What was read has to end here; the same with the place of what follows. Another byte than a blank is Word.
#[tactic(auto, unfolding(crate::specs::Words::ended))]
pub fn ended<'a, T: Drop>(parsed: Parsed<'a, T>) -> Result<Parsed<'a, T>, LineFault>
    ensures { Tells read_of result (words.ended (read_of parsed.entry)) }
{
    if ends_word(parsed.rest.bytes) {
        Ok(Parsed {
            value: parsed.value,
            rest: skip_blanks(parsed.rest),
            seen: parsed.seen,
        })
    } else {
        Err(LineFault::at(parsed.rest.column, Kind::Word))
    }
}

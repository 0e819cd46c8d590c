//! Forms of the words of a line, for the readers of lines. `end` is the column behind the line's last byte, where a
//! line that ends too early is Word; a further word is Word at its first byte.

ghost use Rattle.std.specs.Prelude.{◌≡◌, ◌+◌, ◌≤◌, length, map};
ghost use Rattle.po_lines.specs.Faults.{Gives, Tells};
ghost use Rattle.po_lines.specs.Forms as forms;
ghost use Rattle.po_lines.specs.Leaves.{keyword_in, same};
ghost use Rattle.po_lines.specs.Words.{seen};

use crate::fault::{LineError, LineFault};
use crate::named::name;
use crate::numbers::word_number;
use crate::word::Word;
use po_name::Name;
use po_text::Kind;
use std::alloc::Global;

/// Whether two texts are the same, byte for byte.
pub fn same_text(text: &[u8], other: &[u8]) -> bool
    ensures { result ≡ same text.now other.now }
{
    text == other
}

/// The word has to be this keyword; any other is Word at its first byte.
#[tactic(auto, unfolding(crate::specs::Leaves::keyword_in))]
pub fn keyword(word: &Word, text: &[u8]) -> Result<(), LineFault>
    ensures { Tells (λ _. tt) result (keyword_in text.now (seen word.now)) }
{
    if same_text(word.bytes, text) {
        Ok(())
    } else {
        Err(LineFault::at(word.column, Kind::Word))
    }
}

/// Whether a line with these words is skipped: it has none, or the first begins with `//` (docs/LANGUAGE.md, "Lines").
#[tactic(auto, unfolding(crate::specs::Forms::says_nothing))]
pub fn says_nothing(words: &[Word]) -> bool
    ensures { result ≡ forms.says_nothing (map seen words.now) }
{
    match words {
        [] => true,
        [first, ..] => first.bytes.starts_with(b"//"),
    }
}

/// The column behind the last byte of a line, which has at most 4,096 bytes.
pub fn end_column(line: &[u8]) -> u32
    requires { length line.now ≤ 4096 }
    ensures { result ≡ length line.now + 1 }
{
    line.len() as u32 + 1
}

/// No further word; one that is there is Word at its first byte (docs/LANGUAGE.md, "Lines").
#[tactic(auto, unfolding(crate::specs::Forms::no_more))]
pub fn no_more(words: &[Word]) -> Result<(), LineFault>
    ensures { Tells (λ _. tt) result (forms.no_more (map seen words.now)) }
{
    match words {
        [] => Ok(()),
        [first, ..] => Err(LineFault::at(first.column, Kind::Word)),
    }
}

/// The first word; where there is none, the fault is Word at the column `end` (docs/LANGUAGE.md, "Lines").
#[tactic(auto, unfolding(crate::specs::Forms::first_word))]
pub fn first_word<'a>(words: &[Word<'a>], end: u32) -> Result<Word<'a>, LineFault>
    ensures { Tells seen result (forms.first_word (map seen words.now) end) }
{
    match words {
        [] => Err(LineFault::at(end, Kind::Word)),
        [first, ..] => Ok(*first),
    }
}

/// The words behind the first, or none where there is no first.
#[tactic(auto, unfolding(crate::specs::Forms::rest_words))]
pub fn rest_words<'w, 'a>(words: &'w [Word<'a>]) -> &'w [Word<'a>]
    ensures { map seen result.now ≡ forms.rest_words (map seen words.now) }
{
    match words {
        [] => words,
        [_, rest @ ..] => rest,
    }
}

/// One name, and no further word. A missing name is Word at the column `end`, a further word is Word at its first
/// byte, and a word that is no name has the fault of `name`.
#[tactic(auto, unfolding(crate::specs::Forms::name_alone))]
pub fn name_alone(alloc: Global, words: &[Word], end: u32) -> Result<Name, LineError>
    ensures { Gives (λ n. n) result (forms.name_alone (map seen words.now) end) }
{
    let word = first_word(words, end)?;
    let name = name(alloc, &word)?;
    no_more(rest_words(words))?;
    Ok(name)
}

/// One number of a machine word, and no further word. A missing number is Word at the column `end`, a further word is
/// Word at its first byte, and a word that is no such number has the fault of `word_number`.
#[tactic(auto, unfolding(crate::specs::Forms::word_number_alone))]
pub fn word_number_alone(words: &[Word], end: u32) -> Result<u32, LineFault>
    ensures { Tells (λ n. n) result (forms.word_number_alone (map seen words.now) end) }
{
    let word = first_word(words, end)?;
    let number = word_number(&word)?;
    no_more(rest_words(words))?;
    Ok(number)
}

//! The names on a line. `end` is the column behind the line's last byte, where a line that ends too early is Word.

ghost use Rattle.std.specs.Prelude.{◌≡◌, map, take, drop};
ghost use Rattle.po_lines.specs.Faults.{Gives, Tells};
ghost use Rattle.po_lines.specs.Words.{seen};
ghost use Rattle.po_mdread.specs.NameLines as lines;

use po_lines::{LineError, LineFault, Names, Word, fault_at, first_word, name, no_more};
use po_name::Name;
use po_text::Kind;
use sqlite_items::Items;
use std::alloc::Global;

/// The words as names.
fn names(alloc: Global, words: &[Word]) -> Result<Items<Name>, LineError>
    ensures { Gives (λ ns. ns) result (lines.names_in (map seen words.now)) }
{
    let mut names = Items::new(alloc);
    'words: for word in words {
        let name = match name(alloc, word) {
            Ok(name) => name,
            Err(error) => return Err(error),
        };
        names.push(name)?;
    }
    Ok(names)
}

/// There have to be so many words.
#[tactic(auto, unfolding(crate::specs::NameLines::at_least))]
fn at_least(count: usize, words: &[Word], end: u32) -> Result<(), LineFault>
    ensures { Tells (λ _. tt) result (lines.at_least count (map seen words.now) end) }
{
    if words.len() < count {
        Err(LineFault::at(end, Kind::Word))
    } else {
        Ok(())
    }
}

/// No word; the first one is too many.
#[tactic(auto, unfolding(crate::specs::NameLines::none_past))]
fn none_past(words: &[Word]) -> Result<(), LineFault>
    ensures { Tells (λ _. tt) result (lines.none_past (map seen words.now)) }
{
    match words {
        [] => Ok(()),
        [first, ..] => Err(LineFault::at(first.column, Kind::TooMany)),
    }
}

/// At most so many of the first words.
fn front<'w, 'a>(words: &'w [Word<'a>], count: usize) -> &'w [Word<'a>]
    ensures { map seen result.now ≡ take count (map seen words.now) }
{
    &words[..words.len().min(count)]
}

/// The words behind the first so many.
fn back<'w, 'a>(words: &'w [Word<'a>], count: usize) -> &'w [Word<'a>]
    ensures { map seen result.now ≡ drop count (map seen words.now) }
{
    &words[words.len().min(count)..]
}

/// Four names, and no further word.
#[tactic(auto, unfolding(crate::specs::NameLines::four_names))]
pub fn four_names(alloc: Global, words: &[Word], end: u32) -> Result<Items<Name>, LineError>
    ensures { Gives (λ ns. ns) result (lines.four_names (map seen words.now) end) }
{
    let names = names(alloc, front(words, 4))?;
    at_least(4, words, end)?;
    no_more(back(words, 4))?;
    Ok(names)
}

/// 1 to 64 names. Their number is looked at first.
#[tactic(auto, unfolding(crate::specs::NameLines::register_names))]
pub fn register_names(alloc: Global, words: &[Word], end: u32) -> Result<Items<Name>, LineError>
    ensures { Gives (λ ns. ns) result (lines.register_names (map seen words.now) end) }
{
    none_past(back(words, 64))?;
    first_word(words, end)?;
    names(alloc, words)
}

/// These names, and behind them those of the words. The first one that is there already is Duplicate.
pub fn with_new(alloc: Global, names: Names, words: &[Word]) -> Result<Names, LineError>
    ensures { Gives (λ ns. ns) result (lines.with_new names (map seen words.now)) }
{
    let mut names = names;
    'words: for word in words {
        let added = match names.insert(alloc, word.bytes) {
            Ok(added) => added,
            Err(_) => return Err(LineError::Memory),
        };
        if !added {
            return Err(fault_at(word.column, Kind::Duplicate));
        }
    }
    Ok(names)
}

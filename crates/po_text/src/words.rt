//! A line cut into its words, which stand between spaces and tabs.

ghost use Rattle.std.specs.Prelude.{◌≡◌, ◌+◌, ◌≤◌, ◌<◌, ◌++◌, drop, length, IfOk};
ghost use Rattle.po_text.specs.Words.{is_blank as is_blank_byte, words_from, words_of, AreWordsFrom};
ghost use Rattle.po_text.specs.WordEnds.{word_between, before_blank};

use crate::{OutOfMemory, Span};
use std::alloc::Global;

/// The words of a line in their order: what stands between spaces and tabs (docs/LANGUAGE.md, "Lines").
pub fn split_line(alloc: Global, line: &[u8]) -> Result<Vec<Span>, OutOfMemory>
    ensures value { IfOk result (λ words. words.items ≡ words_of line.now) }
    ensures words { IfOk result (λ words. AreWordsFrom 0 line.now words.items) }
{
    let mut words = Vec::new(alloc);
    let mut at = 0;
    'words: while at < line.len() {
        let end = word_end(line, at);
        push_word(&mut words, at, end)?;
        at = end + 1;
    }
    Ok(words)
}

/// Where the word that begins at this byte of a line ends: before the next blank, or at the end of the line. A word
/// that begins at a blank ends there, with no byte (docs/LANGUAGE.md, "Lines").
pub fn word_end(line: &[u8], start: usize) -> usize
    requires { start < length line.now }
    ensures within { result ≤ length line.now }
    ensures end { result ≡ start + before_blank (drop start line.now) }
{
    let mut end = start;
    'word: while end < line.len() && !is_blank(line[end]) {
        end += 1;
    }
    end
}

/// A word goes to the end of the list, if it has a byte.
fn push_word(words: &mut Vec<Span>, start: usize, end: usize) -> Result<(), OutOfMemory>
    ensures { IfOk result (λ _. words.new.items ≡ words.old.items ++ word_between start end) }
{
    if start < end {
        words.push(Span { start, end })?;
    }
    Ok(())
}

/// Whether words end here: a space or a tab.
fn is_blank(byte: u8) -> bool
    ensures { result ≡ is_blank_byte byte }
{
    byte == b' ' || byte == b'\t'
}

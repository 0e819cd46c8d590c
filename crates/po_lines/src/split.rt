//! The words of a line with their columns.

ghost use Rattle.std.specs.Prelude.{◌≡◌, ◌≤◌, ◌<◌, map, length, IfOk};
ghost use Rattle.po_text.specs.declared.fault.Span.{Span};
ghost use Rattle.po_lines.specs.Faults.{Gives};
ghost use Rattle.po_lines.specs.Words as words;

use crate::fault::{LineError, fault_at};
use crate::word::Word;
use po_text::{Kind, Span, split_line};
use std::alloc::Global;

/// The words of a line: what stands between its spaces and tabs. A line of more than 4,096 bytes is TooMany at column
/// 4097, whatever its words are (docs/LANGUAGE.md, "Lines").
#[tactic(auto, unfolding(crate::specs::Words::line_words, crate::specs::Words::words_in))]
pub fn line_words<'a>(alloc: Global, line: &'a [u8]) -> Result<Vec<Word<'a>>, LineError>
    ensures gives { Gives (λ ws. map words.seen ws.items) result (words.line_words line.now) }
    ensures short { IfOk result (λ ws. length line.now ≤ 4096) }
{
    if line.len() > 4096 {
        return Err(fault_at(4097, Kind::TooMany));
    }
    let spans = split_line(alloc, line)?;
    let mut words = Vec::new(alloc);
    for span in &spans {
        words.push(word_at(line, *span))?;
    }
    Ok(words)
}

/// The word at a place of a line.
pub fn word_at(line: &[u8], span: Span) -> Word
    requires order { span.start < span.end }
    requires within { span.end ≤ length line.now }
    requires short { length line.now ≤ 4096 }
    ensures { words.seen result ≡ words.word_at line.now span }
{
    Word {
        column: span.start as u32 + 1,
        bytes: &line[span.start..span.end],
    }
}

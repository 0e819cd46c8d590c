//! The lines of a text from a place on, one behind the other. The lines ahead are those of the bytes that are left.

ghost use Rattle.std.specs.Prelude.{◌≡◌, ◌+◌, ◌≤◌, ◌<◌, ◌^◌, length};
ghost use Rattle.std.specs.List.{position};
ghost use Rattle.std.specs.Str.Lines.{strip_carriage_return};
ghost use Rattle.po_lines.specs.Lines.{is_feed, line_until, lines_behind, Takes};

use crate::fault::refused;
use crate::line::Line;
use po_text::{Kind, Spot, TextRefusal};
use std::marker::Model;

/// The lines of a text that are ahead. A contract sees them as the list of these lines, and the number that the next
/// line has or would have.
#[derive(Drop)]
pub struct Lines<'a> {
    rest: &'a [u8],
    offset: usize,
    line: u32,
}

impl<'a> Model for Lines<'a> {
    ghost use Rattle.std.specs.Prelude.{◌+◌, ◌<◌, ◌^◌, length};
    ghost use Rattle.po_lines.specs.Lines.{Ahead, lines_from};

    ghost Value = { Ahead };

    ghost view = { λ l. record { line = l.line; lines = lines_from l.line l.offset l.rest.now } };

    ghost invariant = { λ l. (l.line + length l.rest.now < 2 ^ 32) × (l.offset + length l.rest.now < 2 ^ 64) };
}

impl<'a> Lines<'a> {
    /// The lines of a text from a place on (docs/LANGUAGE.md, "Lines"). `at` lies in the text or at its end, and
    /// `at.line` and the text's length come to less than 2^32. Takes no memory.
    pub fn behind(text: &'a [u8], at: Spot) -> Lines<'a>
        requires within { at.offset ≤ length text.now }
        requires counted { at.line + length text.now < 2 ^ 32 }
        ensures { result ≡ record { line = at.line; lines = lines_behind at text.now } }
    {
        Lines {
            rest: &text[at.offset..],
            offset: at.offset,
            line: at.line,
        }
    }

    /// The number of the next line, or at the end of the text that of the line behind the last one.
    pub fn number(&self) -> u32
        ensures { result ≡ self.now.line }
    {
        self.line
    }

    /// The next line. None exactly where no line is ahead; then nothing changes. All calls together look at each byte
    /// of the text a fixed number of times.
    pub fn next_line(&mut self) -> Option<Line<'a>>
        ensures { Takes self.old self.new result }
    {
        if self.rest.is_empty() {
            return None;
        }
        let rest = self.rest;
        let length = feed_at(rest).unwrap_or(rest.len());
        let bytes = first_line(rest, length);
        let taken = rest.len().min(length + 1);
        let number = self.line;
        self.rest = &rest[taken..];
        self.offset += taken;
        self.line += 1;
        Some(Line {
            bytes,
            number,
            after: self.offset,
        })
    }
}

/// The refusal of a text whose lines are all read and that ends too early: Word, at column 1 of the line behind the
/// last one (docs/PROGRAM.md, "Faults of the text").
pub fn ended_early(lines: &Lines) -> TextRefusal
    ensures { result ≡ TextRefusal.BadText lines.now.line 1 Kind.Word }
{
    refused(lines.number(), 1, Kind::Word)
}

/// Where the first line feed stands.
fn feed_at(text: &[u8]) -> Option<usize>
    ensures { result ≡ position is_feed text.now }
{
    text.iter().position(|byte| *byte == b'\n')
}

/// The first line, whose line feed, if it has one, stands behind so many bytes.
fn first_line(text: &[u8], end: usize) -> &[u8]
    requires { end ≤ length text.now }
    ensures { result.now ≡ line_until text.now end }
{
    if end < text.len() {
        without_return(&text[..end])
    } else {
        text
    }
}

/// A line without the carriage return at its end, if it has one.
fn without_return(line: &[u8]) -> &[u8]
    ensures { result.now ≡ strip_carriage_return line.now }
{
    match line {
        [front @ .., b'\r'] => front,
        _ => line,
    }
}

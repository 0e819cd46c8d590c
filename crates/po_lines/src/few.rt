//! The first words of a line, cut in place, for readers whose forms have few.

ghost use Rattle.std.specs.Prelude.{◌≡◌, ◌≤◌, ◌<◌, ◌++◌, map, take, length, IfOk};
ghost use Rattle.po_text.specs.WordEnds.{word_between};
ghost use Rattle.po_lines.specs.Faults.{Tells};
ghost use Rattle.po_lines.specs.Words as words;

use crate::fault::LineFault;
use crate::split::word_at;
use crate::word::Word;
use po_text::{Kind, Span, word_end};

/// Puts the first words of a line into a room, as many as there are and as it holds, and says how many. A line of more
/// than 4,096 bytes is TooMany at column 4097, whatever its words are (docs/LANGUAGE.md, "Lines"). Takes no memory.
#[tactic(auto, unfolding(crate::specs::Words::line_words, crate::specs::Words::first_words))]
pub fn first_words<'a>(line: &'a [u8], room: &mut [Word<'a>]) -> Result<usize, LineFault>
    ensures tells { Tells (λ count. map words.seen (take count room.new)) result
        (words.first_words (length room.old) line.now) }
    ensures within { IfOk result (λ count. count ≤ length room.old) }
    ensures short { IfOk result (λ _. length line.now ≤ 4096) }
{
    if line.len() > 4096 {
        return Err(LineFault::at(4097, Kind::TooMany));
    }
    Ok(cut_words(line, room))
}

/// The same of a line that isn't too long.
fn cut_words<'a>(line: &'a [u8], room: &mut [Word<'a>]) -> usize
    requires { length line.now ≤ 4096 }
    ensures words { map words.seen (take result room.new) ≡ take (length room.old) (words.words_in line.now) }
    ensures within { result ≤ length room.old }
{
    let mut count = 0;
    let mut at = 0;
    'words: while count < room.len() && at < line.len() {
        let end = word_end(line, at);
        count = keep_word(line, room, count, at, end);
        at = end + 1;
    }
    count
}

/// A word goes behind so many words of a room, if it has a byte. Gives how many there are then.
fn keep_word<'a>(
    line: &'a [u8],
    room: &mut [Word<'a>],
    count: usize,
    start: usize,
    end: usize,
) -> usize
    requires short { length line.now ≤ 4096 }
    requires within { end ≤ length line.now }
    requires free { count < length room.old }
    ensures words { map words.seen (take result room.new)
        ≡ map words.seen (take count room.old) ++ map (words.word_at line.now) (word_between start end) }
    ensures within { result ≤ length room.old }
{
    if start < end {
        room[count] = word_at(line, Span { start, end });
        return count + 1;
    }
    count
}

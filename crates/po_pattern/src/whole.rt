//! Whole terms. A term is read part by part, without recursion: what is open stands on a stack of frames.

ghost use Rattle.std.specs.Prelude.{◌≡◌, reverse};
ghost use Rattle.po_lines.specs.Faults.{Gives};
ghost use Rattle.po_pattern.specs.Rests.{rest_of, read_of};
ghost use Rattle.po_pattern.specs.Terms as terms;
ghost use Rattle.po_pattern.specs.Readings.{reading_of};

use crate::cursor::{Cursor, Parsed};
use crate::frames::{none_open, pop_frame, with_frame};
use crate::operands::Operands;
use crate::part::{Frame, Part, Turn};
use crate::places::{behind, mark, name_length, skip_blanks};
use crate::reading::Reading;
use crate::turns::{behind_whole, wanted};
use po_lines::{LineError, fault_at, same_text};
use po_model::PatTerm;
use po_text::Kind;
use sqlite_items::Items;
use std::alloc::Global;

/// A whole term, blanks in front of it passed over (docs/DESCRIPTION.md, "Entries"). A term of more than 64 nodes or
/// deeper than 16 is read for its form alone: its value is None. What stands behind the term isn't looked at.
///
/// The first fault from left to right is Word at a part that may not stand there, or at the line's end; Number at a
/// number outside its bounds; Range at the `[` of a range whose lower end is greater than its upper one; ListForm at
/// an operand whose digit has another kind, or that has a range though it was seen before.
#[tactic(auto, unfolding(crate::specs::Terms::term))]
pub fn term<'a>(
    alloc: Global,
    cursor: Cursor<'a>,
    seen: Operands,
) -> Result<Parsed<'a, Option<PatTerm>>, LineError>
    ensures { Gives read_of result (terms.term (rest_of cursor.entry) seen) }
{
    let turn = wanted(skip_blanks(cursor), seen)?;
    let first = Reading {
        frames: Items::new(alloc),
        turn,
    };
    let Reading { frames: _, turn } = read_parts(alloc, first, cursor.bytes.len())?;
    Ok(Parsed {
        value: tree_of(turn.value),
        rest: turn.rest,
        seen: turn.seen,
    })
}

/// So many parts more, or as many as there are until the term is whole.
#[tactic(auto, using(crate::proofs::Steps::steps_next))]
fn read_parts<'a>(alloc: Global, first: Reading<'a>, count: usize) -> Result<Reading<'a>, LineError>
    ensures { Gives reading_of result (terms.steps count (reading_of first.entry)) }
{
    let mut reading = first;
    let mut left = count;
    'parts: while left > 0 && !is_whole(&reading) {
        reading = match step(alloc, reading) {
            Ok(next) => next,
            Err(error) => return Err(error),
        };
        left -= 1;
    }
    Ok(reading)
}

/// Whether a whole part stands and no frame is open.
fn is_whole(reading: &Reading) -> bool
    ensures { result ≡ terms.is_whole (reading_of reading.now) }
{
    match &reading.turn.value {
        Turn::Opens(_) => false,
        Turn::Whole(_) => none_open(&reading.frames),
    }
}

/// One part more.
#[tactic(auto, unfolding(crate::specs::Terms::step))]
fn step<'a>(alloc: Global, reading: Reading<'a>) -> Result<Reading<'a>, LineError>
    ensures { Gives reading_of result (terms.step (reading_of reading.entry)) }
{
    let Reading { frames, turn } = reading;
    let Parsed { value, rest, seen } = turn;
    match value {
        Turn::Opens(frame) => open(frames, frame, rest, seen),
        Turn::Whole(part) => go_on(alloc, frames, part, rest, seen),
    }
}

/// One frame more, in which a term is wanted.
fn open<'a>(
    frames: Items<Frame>,
    frame: Frame,
    rest: Cursor<'a>,
    seen: Operands,
) -> Result<Reading<'a>, LineError>
    ensures { Gives reading_of result (terms.step_with (reverse frames) (Turn.Opens frame) (rest_of rest.entry) seen) }
{
    let frames = with_frame(frames, frame)?;
    let turn = wanted(skip_blanks(rest), seen)?;
    Ok(Reading { frames, turn })
}

/// What stands behind a whole part, by the innermost frame.
fn go_on<'a>(
    alloc: Global,
    frames: Items<Frame>,
    part: Option<Part>,
    rest: Cursor<'a>,
    seen: Operands,
) -> Result<Reading<'a>, LineError>
    ensures { Gives reading_of result (terms.step_with (reverse frames) (Turn.Whole part) (rest_of rest.entry) seen) }
{
    let mut frames = frames;
    match pop_frame(&mut frames) {
        None => Ok(Reading {
            frames,
            turn: Parsed {
                value: Turn::Whole(part),
                rest,
                seen,
            },
        }),
        Some(frame) => {
            let turn = behind_whole(alloc, frame, part, skip_blanks(rest), seen)?;
            Ok(Reading { frames, turn })
        }
    }
}

/// The tree of a whole part that is within the limits.
fn tree_of(turn: Turn) -> Option<PatTerm>
    ensures { result ≡ terms.whole_of turn }
{
    match turn {
        Turn::Opens(_) => None,
        Turn::Whole(part) => part.map(|part| part.term),
    }
}

/// The address in `M[t]` (docs/DESCRIPTION.md, "Entries"). Where it is beyond the limits of a term its value is None.
/// Anything else in the place of `M`, `[` or `]` is Word at its first byte, or at the line's end; the other faults are
/// those of `term`.
#[tactic(auto, unfolding(crate::specs::Terms::address))]
pub fn address<'a>(
    alloc: Global,
    cursor: Cursor<'a>,
    seen: Operands,
) -> Result<Parsed<'a, Option<PatTerm>>, LineError>
    ensures { Gives read_of result (terms.address (rest_of cursor.entry) seen) }
{
    let length = name_length(cursor.bytes);
    if !same_text(&cursor.bytes[..length], b"M") {
        return Err(fault_at(cursor.column, Kind::Word));
    }
    let opened = mark(skip_blanks(behind(cursor, length)), b'[')?;
    let term = term(alloc, opened, seen)?;
    let rest = mark(skip_blanks(term.rest), b']')?;
    Ok(Parsed {
        value: term.value,
        rest,
        seen: term.seen,
    })
}

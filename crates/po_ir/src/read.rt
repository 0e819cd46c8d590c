//! The units of a text: one line behind the other, and what was read so far as a value.

ghost use Rattle.std.specs.Prelude.{◌≡◌, ◌≤◌, ◌+◌, ◌<◌, ◌^◌, ◌++◌, ◌∷◌, [], map, length, All, List, IfOk, IfSome};
ghost use Rattle.std.specs.Prelude.{OnOk};
ghost use Rattle.std.specs.Option.{option_map};
ghost use Rattle.po_lines.specs.Faults.{Gets, at_line};
ghost use Rattle.po_lines.specs.Forms as forms;
ghost use Rattle.po_lines.specs.Lines.{line_of, lines_behind, line_behind};
ghost use Rattle.po_lines.specs.Reading.{read_each};
ghost use Rattle.po_lines.specs.Words.{seen};
ghost use Rattle.po_ir.specs.Grammar.{IsUnits};
ghost use Rattle.po_ir.specs.Keys.{key_of_word};
ghost use Rattle.po_ir.specs.Reading as reading;
ghost use Rattle.po_ir.specs.Reading.{IsState, state_shown};
ghost use Rattle.po_ir.specs.Units.{IsUnit, NamesDiffer};

use crate::begun::Begun;
use crate::line::second_column;
use crate::open::op_line;
use crate::rules::first_miss;
use crate::state::State;
use crate::unit::Unit;
use crate::words::key;
use po_lines::{
    LIMIT, Line, Lines, Names, Word, end_column, ended_early, first_words, in_line, name_alone,
    no_more, past_limit, refused, same_text, says_nothing,
};
use po_name::Name;
use po_text::{Kind, Spot, TextRefusal};
use sqlite_items::Items;
use std::alloc::{AllocError, Global};

/// The answer of a call that stores, with want of memory as the refusal of a text.
fn stored<T: Drop>(answer: Result<T, AllocError>) -> Result<T, TextRefusal>
    ensures { result ≡ reading.stored answer }
{
    match answer {
        Ok(value) => Ok(value),
        Err(_) => Err(TextRefusal::OutOfMemory),
    }
}

/// Whether the unit may end in this line: each jump has its label, and the end isn't reached.
fn check_end(begun: &Begun, line: u32) -> Result<(), TextRefusal>
    requires { reading.IsKept begun.now }
    ensures { Gets (λ _. tt) result (reading.may_end line begun.now.ops begun.now.jumps) }
{
    match first_miss(begun.jumps.as_slice(), &begun.labels) {
        Some(jump) => Err(refused(jump.line, jump.column, Kind::NoLabel)),
        None => {
            if begun.ended {
                Ok(())
            } else {
                Err(refused(line, 1, Kind::FallsOff))
            }
        }
    }
}

/// No word stands behind the first one of a line.
fn only_word(line: u32, rest: &[Word]) -> Result<(), TextRefusal>
    ensures { Gets (λ _. tt) result (at_line line (forms.no_more (map seen rest.now))) }
{
    match no_more(rest) {
        Ok(()) => Ok(()),
        Err(fault) => Err(fault.in_line(line)),
    }
}

/// The unit inside ends.
#[tactic(auto, unfolding(crate::specs::Reading::closed), using(crate::proofs::Prefix::one_more_unit))]
fn close(state: &mut State, line: u32) -> Result<(), TextRefusal>
    requires { IsState state.old }
    ensures gets { IfSome state.old.inside
        (λ begun.
        Gets (λ _. state_shown state.new) result (reading.closed line state.old.units (reading.shown begun))) }
    ensures kept { OnOk result (IsState state.new) }
{
    let Some(begun) = state.inside.take() else {
        return Ok(());
    };
    check_end(&begun, line)?;
    let Begun { name, ops, .. } = begun;
    stored(state.units.push(Unit { name, ops }))
}

/// A line inside a unit that doesn't begin with `end`.
#[tactic(auto, unfolding(crate::specs::Reading::key_line))]
fn key_line(
    alloc: Global,
    begun: &mut Begun,
    first: &Word,
    rest: &[Word],
    line: u32,
    end: u32,
) -> Result<(), TextRefusal>
    requires { reading.IsKept begun.old }
    ensures gets { (us : List Unit)
        → Gets (λ _. record { units = us; inside = Some (reading.shown begun.new) }) result
        (reading.key_line line us (reading.shown begun.old) (key_of_word first.now.bytes.now) (seen first.now)
        (map seen rest.now) end) }
    ensures kept { OnOk result (reading.IsKept begun.new) }
    ensures name { OnOk result (begun.new.name ≡ begun.old.name) }
{
    let Some(key) = key(first.bytes) else {
        return Err(refused(line, first.column, Kind::Word));
    };
    in_line(line, op_line(alloc, begun, key, rest, line, end))
}

/// A line between units.
#[tactic(auto, unfolding(crate::specs::Reading::outside_line, crate::specs::Reading::begun_with))]
fn outside_line(
    alloc: Global,
    state: &mut State,
    first: &Word,
    rest: &[Word],
    line: u32,
    end: u32,
) -> Result<(), TextRefusal>
    requires kept { IsState state.old }
    requires outside { state.old.inside ≡ None }
    ensures gets { Gets (λ _. state_shown state.new) result
        (reading.outside_line line state.old.units (seen first.now) (map seen rest.now) end) }
    ensures kept { OnOk result (IsState state.new) }
{
    if !same_text(first.bytes, b"unit") {
        return Err(refused(line, first.column, Kind::Word));
    }
    if state.units.len() == 65536 {
        return Err(refused(line, 1, Kind::TooMany));
    }
    let name = in_line(line, name_alone(alloc, rest, end))?;
    let added = stored(state.names.insert(alloc, name.bytes()))?;
    if !added {
        return Err(refused(line, second_column(rest), Kind::Duplicate));
    }
    state.inside = Some(begin(alloc, name));
    Ok(())
}

/// A unit that begins.
fn begin(alloc: Global, name: Name) -> Begun
    ensures shown { reading.shown result ≡ record { name = name; ops = []; jumps = [] } }
    ensures kept { reading.IsKept result }
{
    Begun {
        name,
        ops: Items::new(alloc),
        jumps: Items::new(alloc),
        labels: Names::new(alloc),
        args: Items::new(alloc),
        depth: 0,
        ended: false,
    }
}

/// A line that says something.
#[tactic(auto, unfolding(crate::specs::Reading::some_line, crate::specs::Reading::inside_line))]
fn some_line(
    alloc: Global,
    state: &mut State,
    first: &Word,
    rest: &[Word],
    line: u32,
    end: u32,
) -> Result<(), TextRefusal>
    requires { IsState state.old }
    ensures gets { Gets (λ _. state_shown state.new) result
        (reading.some_line line state.old.units (option_map reading.shown state.old.inside) (seen first.now)
        (map seen rest.now) end) }
    ensures kept { OnOk result (IsState state.new) }
{
    match &mut state.inside {
        None => outside_line(alloc, state, first, rest, line, end),
        Some(begun) => {
            if same_text(first.bytes, b"end") {
                only_word(line, rest)?;
                return close(state, line);
            }
            key_line(alloc, begun, first, rest, line, end)
        }
    }
}

/// A line from its words.
#[tactic(auto, unfolding(crate::specs::Reading::words_line))]
fn words_line(
    alloc: Global,
    state: &mut State,
    words: &[Word],
    line: u32,
    end: u32,
) -> Result<(), TextRefusal>
    requires { IsState state.old }
    ensures gets { Gets (λ _. state_shown state.new) result
        (reading.words_line line (state_shown state.old) (map seen words.now) end) }
    ensures kept { OnOk result (IsState state.new) }
{
    match words {
        [] => Ok(()),
        [first, rest @ ..] => {
            if says_nothing(words) {
                return Ok(());
            }
            some_line(alloc, state, first, rest, line, end)
        }
    }
}

/// One more line of the text. No form has more than three words, so the first four tell all.
#[tactic(auto, unfolding(crate::specs::Reading::step))]
fn step<'a>(
    alloc: Global,
    state: &mut State,
    room: &mut [Word<'a>],
    line: &Line<'a>,
) -> Result<(), TextRefusal>
    requires kept { IsState state.old }
    requires four { length room.old ≡ 4 }
    ensures gets { Gets (λ _. state_shown state.new) result (reading.step (state_shown state.old) (line_of line.now)) }
    ensures kept { OnOk result (IsState state.new) }
{
    match first_words(line.bytes, room) {
        Ok(count) => {
            let end = end_column(line.bytes);
            words_line(alloc, state, &room[..count], line.number, end)
        }
        Err(fault) => Err(fault.in_line(line.number)),
    }
}

/// The lines that are ahead, up to the end of the text.
fn read_lines<'a>(alloc: Global, lines: &mut Lines<'a>) -> Result<State, TextRefusal>
    ensures gets { Gets state_shown result (read_each reading.step reading.nothing_yet lines.old.lines) }
    ensures number { IfOk result (λ _. lines.new.line ≡ lines.old.line + length lines.old.lines) }
{
    let mut state = State {
        units: Items::new(alloc),
        names: Names::new(alloc),
        inside: None,
    };
    let mut room = [Word {
        column: 1,
        bytes: b"",
    }; 4];
    'lines: while let Some(line) = lines.next_line() {
        match step(alloc, &mut state, &mut room, &line) {
            Ok(()) => {}
            Err(error) => return Err(error),
        }
    }
    Ok(state)
}

/// The units of a text from a place on that isn't too long, or the first fault there.
#[tactic(auto, unfolding(crate::specs::Reading::units_in, crate::specs::Reading::finish))]
fn units_of(alloc: Global, text: &[u8], at: Spot) -> Result<Items<Unit>, TextRefusal>
    requires within { at.offset ≤ length text.now }
    requires counted { at.line + length text.now < 2 ^ 32 }
    ensures { Gets (λ us. us) result (reading.units_in (lines_behind at text.now) (line_behind at text.now)) }
{
    let mut lines = Lines::behind(text, at);
    let state = match read_lines(alloc, &mut lines) {
        Ok(state) => state,
        Err(error) => return Err(error),
    };
    match state.inside {
        None => Ok(state.units),
        Some(_) => Err(ended_early(&lines)),
    }
}

/// The units of a text from a place on, up to its end, or the first fault there (docs/STACK.md). A text of more than
/// 4,194,304 bytes is TooMany at the first byte past them, whatever its lines say. `at` is where a line begins, or the
/// text's end, and no more lines than bytes stand before it. What is read is allowed by the language. The time is
/// linear in what is read.
pub fn read_units(alloc: Global, text: &[u8], at: Spot) -> Result<Items<Unit>, TextRefusal>
    requires within { at.offset ≤ length text.now }
    requires counted { at.line ≤ at.offset + 1 }
    ensures gets { Gets (λ us. us) result (reading.units_behind at text.now) }
    ensures allowed { IfOk result (λ us. All IsUnit us) }
    ensures differ { IfOk result (λ us. NamesDiffer us) }
    ensures few { IfOk result (λ us. length us ≤ 65536) }
    ensures written { IfOk result (IsUnits (lines_behind at text.now)) }
{
    if text.len() > LIMIT {
        return Err(past_limit(text, LIMIT));
    }
    units_of(alloc, text, at)
}

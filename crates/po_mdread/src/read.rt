//! The description of a text: one line behind the other, and what was read so far as a value.

ghost use Rattle.std.specs.Prelude.{◌≡◌, ◌≤◌, ◌+◌, ◌<◌, ◌-◌, ◌^◌, length, map, IfOk, false};
ghost use Rattle.po_lines.specs.Faults.{Gives, Gets};
ghost use Rattle.po_lines.specs.Lines.{line_of, lines_behind, line_behind};
ghost use Rattle.po_lines.specs.Reading.{read_each};
ghost use Rattle.po_lines.specs.Words.{seen};
ghost use Rattle.po_model.specs.Machines.{IsMachine};
ghost use Rattle.po_mdread.specs.Description.{BeginWith};
ghost use Rattle.po_mdread.specs.Reading as reading;
ghost use Rattle.po_mdread.specs.Reading.{IsState};

use crate::line::{args_line, entry_line, frame_line, machine_line, regs_line, result_line};
use crate::sofar::{Sofar, State};
use po_lines::{
    LIMIT, Line, LineError, Lines, Names, Word, end_column, ended_early, in_line, line_words,
    past_limit, says_nothing,
};
use po_model::Machine;
use po_text::{Spot, TextRefusal};
use std::alloc::Global;

/// A line that says something.
#[tactic(auto, unfolding(crate::specs::Reading::some_line))]
fn some_line(
    alloc: Global,
    state: State,
    line: &Line,
    first: &Word,
    rest: &[Word],
) -> Result<State, LineError>
    requires state { IsState state }
    requires short { length line.now.bytes.now ≤ 4096 }
    ensures gives { Gives (λ s. s.sofar) result (reading.some_line state.sofar (line_of line.now) (seen first.now)
        (map seen rest.now)) }
    ensures kept { IfOk result IsState }
{
    let end = end_column(line.bytes);
    let State { sofar, names } = state;
    match sofar {
        Sofar::ToMachine => machine_line(alloc, first, rest, end),
        Sofar::ToFrame(name) => frame_line(alloc, name, first, rest, end),
        Sofar::ToResult(name, frame) => result_line(alloc, name, frame, names, first, rest, end),
        Sofar::ToArgs(name, frame, result) => {
            args_line(alloc, name, frame, result, names, first, rest, end)
        }
        Sofar::ToRegs(name, frame, result, args) => {
            regs_line(alloc, name, frame, result, args, names, first, rest, end)
        }
        Sofar::ToEntries(machine) => {
            let sofar = entry_line(alloc, machine, line, first, rest)?;
            Ok(State { sofar, names })
        }
        Sofar::Ended(machine, at) => Ok(State {
            sofar: Sofar::Ended(machine, at),
            names,
        }),
    }
}

/// A line from its words.
#[tactic(auto, unfolding(crate::specs::Reading::words_line))]
fn words_line(alloc: Global, state: State, line: &Line, words: &[Word]) -> Result<State, LineError>
    requires state { IsState state }
    requires short { length line.now.bytes.now ≤ 4096 }
    ensures gives { Gives (λ s. s.sofar) result (reading.words_line state.sofar (line_of line.now)
        (map seen words.now)) }
    ensures kept { IfOk result IsState }
{
    match words {
        [] => Ok(state),
        [first, rest @ ..] => {
            if says_nothing(words) {
                return Ok(state);
            }
            some_line(alloc, state, line, first, rest)
        }
    }
}

/// What is read behind one more line.
#[tactic(auto, unfolding(crate::specs::Reading::line_in))]
fn line_in(alloc: Global, state: State, line: &Line) -> Result<State, LineError>
    requires { IsState state }
    ensures gives { Gives (λ s. s.sofar) result (reading.line_in state.sofar (line_of line.now)) }
    ensures kept { IfOk result IsState }
{
    let words = line_words(alloc, line.bytes)?;
    words_line(alloc, state, line, words.as_slice())
}

/// Whether the line `end` was read.
fn has_ended(sofar: &Sofar) -> bool
    ensures { result ≡ reading.has_ended sofar.now }
{
    matches!(sofar, Sofar::Ended(_, _))
}

/// One more line of the text.
#[tactic(auto, unfolding(crate::specs::Reading::step))]
fn step(alloc: Global, state: State, line: &Line) -> Result<State, TextRefusal>
    requires { IsState state }
    ensures gets { Gets (λ s. s.sofar) result (reading.step state.sofar (line_of line.now)) }
    ensures kept { IfOk result IsState }
{
    if has_ended(&state.sofar) {
        return Ok(state);
    }
    in_line(line.number, line_in(alloc, state, line))
}

/// The lines that are ahead, up to `end` or to the end of the text.
fn read_lines(alloc: Global, lines: &mut Lines) -> Result<Sofar, TextRefusal>
    ensures gets { Gets (λ s. s) result (read_each reading.step Sofar.ToMachine lines.old.lines) }
    ensures number { IfOk result (λ s. reading.has_ended s ≡ false → lines.new.line ≡ lines.old.line + length
        lines.old.lines) }
{
    let mut state = State {
        sofar: Sofar::ToMachine,
        names: Names::new(alloc),
    };
    'lines: while let Some(line) = lines.next_line() {
        state = match step(alloc, state, &line) {
            Ok(next) => next,
            Err(error) => return Err(error),
        };
        if has_ended(&state.sofar) {
            return Ok(state.sofar);
        }
    }
    Ok(state.sofar)
}

/// The machine that a text begins with that isn't too long, or the first fault there.
#[tactic(auto, unfolding(crate::specs::Reading::described, crate::specs::Reading::finish))]
fn machine_of(alloc: Global, text: &[u8]) -> Result<(Machine, Spot), TextRefusal>
    requires { length text.now < 2 ^ 32 - 1 }
    ensures gets { Gets (λ r. r) result
        (reading.described (lines_behind reading.start text.now) (line_behind reading.start text.now)) }
    ensures allowed { IfOk result (λ r. IsMachine r.0) }
    ensures written { IfOk result (λ r. BeginWith (lines_behind reading.start text.now) r.0 r.1) }
    ensures spot { IfOk result (λ r. reading.IsSpotIn text.now r.1) }
{
    let mut lines = Lines::behind(text, Spot { offset: 0, line: 1 });
    let sofar = match read_lines(alloc, &mut lines) {
        Ok(sofar) => sofar,
        Err(error) => return Err(error),
    };
    match sofar {
        Sofar::Ended(machine, at) => Ok((machine, at)),
        Sofar::ToMachine
        | Sofar::ToFrame(_)
        | Sofar::ToResult(_, _)
        | Sofar::ToArgs(_, _, _)
        | Sofar::ToRegs(_, _, _, _)
        | Sofar::ToEntries(_) => Err(ended_early(&lines)),
    }
}

/// The machine that a text begins with, and the place behind its line `end`, or the first fault there
/// (docs/DESCRIPTION.md). A text of more than 4,194,304 bytes is TooMany at the first byte past them, whatever its
/// lines say. The time is linear in what is read.
pub fn read_machine(alloc: Global, text: &[u8]) -> Result<(Machine, Spot), TextRefusal>
    ensures gets { Gets (λ r. r) result (reading.machine_in text.now) }
    ensures allowed { IfOk result (λ r. IsMachine r.0) }
    ensures written { IfOk result (λ r. BeginWith (lines_behind reading.start text.now) r.0 r.1) }
    ensures spot { IfOk result (λ r. reading.IsSpotIn text.now r.1) }
{
    if text.len() > LIMIT {
        return Err(past_limit(text, LIMIT));
    }
    machine_of(alloc, text)
}

//! What a line says, behind what was read so far. `end` is the column behind the line's last byte.

ghost use Rattle.std.specs.Prelude.{◌≡◌, ◌∷◌, [], ◌++◌, ◌≤◌, ◌+◌, ◌<◌, length, map, IfOk};
ghost use Rattle.po_lines.specs.Faults.{Gives, Tells};
ghost use Rattle.po_lines.specs.Lines.{line_of};
ghost use Rattle.po_lines.specs.Words.{seen};
ghost use Rattle.po_mdread.specs.Reading as reading;
ghost use Rattle.po_mdread.specs.Reading.{IsState};

use crate::names::{four_names, register_names, with_new};
use crate::sofar::{Sofar, State};
use po_entry::read_entry;
use po_lines::{
    Line, LineError, LineFault, Names, Word, fault_at, keyword, name_alone, no_more, same_text,
};
use po_model::Machine;
use po_name::Name;
use po_text::{Kind, Spot};
use sqlite_items::Items;
use std::alloc::Global;

/// `machine` and a name.
#[tactic(auto, unfolding(crate::specs::Reading::machine_line))]
pub fn machine_line(
    alloc: Global,
    first: &Word,
    rest: &[Word],
    end: u32,
) -> Result<State, LineError>
    ensures gives { Gives (λ s. s.sofar) result (reading.machine_line (seen first.now) (map seen rest.now) end) }
    ensures kept { IfOk result IsState }
{
    keyword(first, b"machine")?;
    let name = name_alone(alloc, rest, end)?;
    Ok(State {
        sofar: Sofar::ToFrame(name),
        names: Names::new(alloc),
    })
}

/// `frame` and a name.
#[tactic(auto, unfolding(crate::specs::Reading::frame_line))]
pub fn frame_line(
    alloc: Global,
    name: Name,
    first: &Word,
    rest: &[Word],
    end: u32,
) -> Result<State, LineError>
    ensures gives { Gives (λ s. s.sofar) result (reading.frame_line name (seen first.now) (map seen rest.now) end) }
    ensures kept { IfOk result IsState }
{
    keyword(first, b"frame")?;
    let frame = name_alone(alloc, rest, end)?;
    let mut names = Names::new(alloc);
    names.insert(alloc, frame.bytes())?;
    Ok(State {
        sofar: Sofar::ToResult(name, frame),
        names,
    })
}

/// `result` and a new name.
#[tactic(auto, unfolding(crate::specs::Reading::result_line))]
pub fn result_line(
    alloc: Global,
    name: Name,
    frame: Name,
    names: Names,
    first: &Word,
    rest: &[Word],
    end: u32,
) -> Result<State, LineError>
    requires { names ≡ frame ∷ [] }
    ensures gives { Gives (λ s. s.sofar) result (reading.result_line name frame (seen first.now) (map seen rest.now)
        end) }
    ensures kept { IfOk result IsState }
{
    keyword(first, b"result")?;
    let result_name = name_alone(alloc, rest, end)?;
    let names = with_new(alloc, names, rest)?;
    Ok(State {
        sofar: Sofar::ToArgs(name, frame, result_name),
        names,
    })
}

/// `args` and four new names.
#[tactic(auto, unfolding(crate::specs::Reading::args_line))]
pub fn args_line(
    alloc: Global,
    name: Name,
    frame: Name,
    result_name: Name,
    names: Names,
    first: &Word,
    rest: &[Word],
    end: u32,
) -> Result<State, LineError>
    requires { names ≡ frame ∷ result_name ∷ [] }
    ensures gives { Gives (λ s. s.sofar) result (reading.args_line name frame result_name (seen first.now)
        (map seen rest.now) end) }
    ensures kept { IfOk result IsState }
{
    keyword(first, b"args")?;
    let args = four_names(alloc, rest, end)?;
    let names = with_new(alloc, names, rest)?;
    Ok(State {
        sofar: Sofar::ToRegs(name, frame, result_name, args),
        names,
    })
}

/// `regs` and 1 to 64 new names.
#[tactic(auto, unfolding(crate::specs::Reading::regs_line))]
pub fn regs_line(
    alloc: Global,
    name: Name,
    frame: Name,
    result_name: Name,
    args: Items<Name>,
    names: Names,
    first: &Word,
    rest: &[Word],
    end: u32,
) -> Result<State, LineError>
    requires { names ≡ frame ∷ result_name ∷ args }
    ensures gives { Gives (λ s. s.sofar) result (reading.regs_line name frame result_name args (seen first.now)
        (map seen rest.now) end) }
    ensures kept { IfOk result IsState }
{
    keyword(first, b"regs")?;
    let regs = register_names(alloc, rest, end)?;
    let names = with_new(alloc, names, rest)?;
    let entries = Items::new(alloc);
    let machine = Machine {
        name,
        frame,
        result: result_name,
        args,
        regs,
        entries,
    };
    Ok(State {
        sofar: Sofar::ToEntries(machine),
        names,
    })
}

/// An `insn` line. There may be 512.
#[tactic(auto, unfolding(crate::specs::Reading::insn_line))]
fn insn_line(alloc: Global, machine: Machine, line: &Line) -> Result<Sofar, LineError>
    requires short { length line.now.bytes.now ≤ 4096 }
    ensures gives { Gives (λ s. s) result (reading.insn_line machine (line_of line.now)) }
    ensures names { IfOk result (λ s. reading.names_sofar s ≡ reading.names_sofar (Sofar.ToEntries machine)) }
{
    if machine.entries.len() == 512 {
        return Err(fault_at(1, Kind::TooMany));
    }
    let entry = read_entry(alloc, line.bytes)?;
    let mut machine = machine;
    machine.entries.push(entry)?;
    Ok(Sofar::ToEntries(machine))
}

/// The place behind a line.
fn behind(line: &Line) -> Spot
    ensures { result ≡ reading.behind (line_of line.now) }
{
    Spot {
        offset: line.after,
        line: line.number + 1,
    }
}

/// `end`, and no further word.
#[tactic(auto, unfolding(crate::specs::Reading::end_line))]
fn end_line(machine: Machine, line: &Line, rest: &[Word]) -> Result<Sofar, LineFault>
    ensures gives { Tells (λ s. s) result (reading.end_line machine (line_of line.now) (map seen rest.now)) }
    ensures names { IfOk result (λ s. reading.names_sofar s ≡ reading.names_sofar (Sofar.ToEntries machine)) }
{
    no_more(rest)?;
    Ok(Sofar::Ended(machine, behind(line)))
}

/// A line behind the head lines.
#[tactic(auto, unfolding(crate::specs::Reading::entry_line))]
pub fn entry_line(
    alloc: Global,
    machine: Machine,
    line: &Line,
    first: &Word,
    rest: &[Word],
) -> Result<Sofar, LineError>
    requires short { length line.now.bytes.now ≤ 4096 }
    ensures gives { Gives (λ s. s) result (reading.entry_line machine (line_of line.now) (seen first.now)
        (map seen rest.now)) }
    ensures names { IfOk result (λ s. reading.names_sofar s ≡ reading.names_sofar (Sofar.ToEntries machine)) }
{
    if same_text(first.bytes, b"insn") {
        return insn_line(alloc, machine, line);
    }
    if same_text(first.bytes, b"end") {
        return Ok(end_line(machine, line, rest)?);
    }
    Err(fault_at(first.column, Kind::Word))
}

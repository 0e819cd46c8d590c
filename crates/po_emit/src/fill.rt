//! The lines of entries with their operands filled in.
ghost use Rattle.std.specs.Prelude.{◌≡◌, ◌++◌, ◌∷◌, OnOk, OnErr};
ghost use Rattle.std.specs.Io.{StartsWith};
ghost use Rattle.po_model.specs.UnitCodes.{unit_of};
ghost use Rattle.po_emit.specs.Regs.{machine_at};
ghost use Rattle.po_emit.specs.Texts.{slot_at, operand_text, digit_text};
ghost use Rattle.po_emit.specs.Templates.{text_behind, part_text, line_text};

use crate::names::{name_at, push_label, register_name};
use crate::templates::{Line, Part};
use itoa::Buffer;
use po_model::{Machine, UnitCode};
use po_recog::Operand;
use po_word::OutOfMemory;

/// The operand of a digit.
fn slot_at(slots: &[Option<Operand>], k: u8) -> Option<Operand>
    ensures { result ≡ slot_at slots.now k }
{
    slots.get(usize::from(k)).copied().unwrap_or(None)
}

/// Writes what an operand stands for: a register by its name, a constant in decimal by its signed view, a label as
/// `NAME.LABEL`, a symbol by its name.
fn push_operand(
    m: &Machine,
    regs: &[u32],
    u: &UnitCode,
    operand: Option<Operand>,
    out: &mut Vec<u8>,
) -> Result<(), OutOfMemory>
    ensures ok { OnOk result (out.new.items
        ≡ out.old.items ++ operand_text m.now (machine_at regs.now) (unit_of u.now) operand) }
    ensures err { OnErr result (StartsWith out.new.items out.old.items) }
{
    match operand {
        None => {}
        Some(Operand::Reg(r)) => out.extend_from_slice(register_name(m, regs, r))?,
        Some(Operand::Num(n)) => {
            out.extend_from_slice(Buffer::new().format(n.cast_signed()).as_bytes())?
        }
        Some(Operand::Label(label)) => push_label(u, label, out)?,
        Some(Operand::Sym(s)) => out.extend_from_slice(name_at(&u.syms, s.0 as usize))?,
    }
    Ok(())
}

/// Writes a part of a line.
fn push_part(
    m: &Machine,
    regs: &[u32],
    u: &UnitCode,
    slots: &[Option<Operand>],
    part: &Part,
    out: &mut Vec<u8>,
) -> Result<(), OutOfMemory>
    ensures ok { OnOk result (out.new.items
        ≡ out.old.items ++ part_text (digit_text m.now (machine_at regs.now) (unit_of u.now) slots.now) part.now) }
    ensures err { OnErr result (StartsWith out.new.items out.old.items) }
{
    out.extend_from_slice(&part.bytes)?;
    if let Some(k) = part.digit {
        push_operand(m, regs, u, slot_at(slots, k), out)?;
    }
    Ok(())
}

/// Writes the line of an entry with its operands filled in.
pub fn push_filled(
    m: &Machine,
    regs: &[u32],
    u: &UnitCode,
    slots: &[Option<Operand>],
    line: &Line,
    out: &mut Vec<u8>,
) -> Result<(), OutOfMemory>
    ensures ok { OnOk result (out.new.items
        ≡ out.old.items ++ line_text (digit_text m.now (machine_at regs.now) (unit_of u.now) slots.now) line.now) }
    ensures err { OnErr result (StartsWith out.new.items out.old.items) }
{
    for part in &line.parts {
        push_part(m, regs, u, slots, part, out)?;
    }
    Ok(())
}

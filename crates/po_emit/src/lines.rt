//! The lines of instructions and of blocks.
ghost use Rattle.std.specs.Prelude.{◌≡◌, ◌++◌, ◌<◌, ◌^◌, ℕ, Bool, true, OnOk, OnErr, IfOk, length, codes, is_some};
ghost use Rattle.std.specs.Io.{StartsWith};
ghost use Rattle.po_term.specs.Moves.{moves_of, instrs_of};
ghost use Rattle.po_model.specs.Fit.{fit};
ghost use Rattle.po_model.specs.UnitCodes.{unit_of};
ghost use Rattle.po_model.specs.Assembly.{label_line, line_of, lines_from};
ghost use Rattle.po_recog.specs.Indexes.{IsIndexOf};
ghost use Rattle.po_live.specs.Flags.{flag_at};
ghost use Rattle.po_emit.specs.Fits.{FitFrom};
ghost use Rattle.po_emit.specs.Regs.{machine_at};
ghost use Rattle.po_emit.specs.Texts.{line_with};
ghost use Rattle.po_emit.specs.Templates.{AreTemplatesOf};

use crate::fill::push_filled;
use crate::names::push_label;
use crate::templates::Templates;
use po_model::{Block, Machine, UnitCode};
use po_recog::{Index, Operand, recognise_in};
use po_term::{Instr, Label, Transfer};
use po_word::OutOfMemory;

/// Writes the line of a block, where it has a label.
pub fn push_label_line(
    u: &UnitCode,
    label: Option<Label>,
    out: &mut Vec<u8>,
) -> Result<(), OutOfMemory>
    ensures ok { OnOk result (out.new.items ≡ out.old.items ++ label_line (unit_of u.now) label) }
    ensures err { OnErr result (StartsWith out.new.items out.old.items) }
{
    if let Some(label) = label {
        push_label(u, label, out)?;
        out.extend_from_slice(b":\n")?;
    }
    Ok(())
}

/// Writes a line without an instruction.
fn push_empty_line(out: &mut Vec<u8>) -> Result<(), OutOfMemory>
    ensures ok { OnOk result (out.new.items ≡ out.old.items ++ codes "  \n") }
    ensures err { OnErr result (StartsWith out.new.items out.old.items) }
{
    out.extend_from_slice(b"  \n")?;
    Ok(())
}

/// Writes the line of the entry of that number with its operands filled in. An empty line where there is none of that
/// number.
fn push_entry(
    m: &Machine,
    templates: &Templates,
    regs: &[u32],
    u: &UnitCode,
    entry: u32,
    slots: &[Option<Operand>],
    out: &mut Vec<u8>,
) -> Result<(), OutOfMemory>
    requires { AreTemplatesOf m.now templates.now }
    ensures ok { OnOk result (out.new.items
        ≡ out.old.items ++ line_with m.now (machine_at regs.now) (unit_of u.now) (entry, slots.now)) }
    ensures err { OnErr result (StartsWith out.new.items out.old.items) }
{
    match templates.lines.as_slice().get(entry as usize) {
        Some(line) => push_filled(m, regs, u, slots, line, out),
        None => push_empty_line(out),
    }
}

/// Writes the line of an instruction, and says whether an entry fits it. Nothing where none does.
fn push_line(
    m: &Machine,
    index: &Index,
    templates: &Templates,
    regs: &[u32],
    u: &UnitCode,
    xs: &[Transfer],
    cc_live: bool,
    out: &mut Vec<u8>,
) -> Result<bool, OutOfMemory>
    requires entries { length m.now.entries < 2 ^ 32 }
    requires index { IsIndexOf m.now index.now }
    requires templates { AreTemplatesOf m.now templates.now }
    ensures ok { OnOk result (out.new.items ≡ out.old.items
        ++ line_of m.now (machine_at regs.now) (unit_of u.now) (fit m.now cc_live (moves_of xs.now))) }
    ensures fits { IfOk result (λ fits. fits ≡ is_some (fit m.now cc_live (moves_of xs.now))) }
    ensures err { OnErr result (StartsWith out.new.items out.old.items) }
{
    let mut slots = [None; 10];
    match recognise_in(m, index, xs, cc_live, &mut slots) {
        Some(entry) => {
            push_entry(m, templates, regs, u, entry, &slots, out)?;
            Ok(true)
        }
        None => Ok(false),
    }
}

/// Whether both are so.
pub fn both(one: bool, other: bool) -> bool
    ensures { result ≡ true → (one ≡ true) × (other ≡ true) }
{
    if one { other } else { false }
}

/// Whether `cc` is live after the instruction of that number.
fn cc_live_at(lives: &[bool], i: usize) -> bool
    ensures { result ≡ flag_at lives.now i }
{
    match lives.get(i) {
        Some(live) => *live,
        None => false,
    }
}

/// Writes the lines of a block's instructions, with what is live after each, and says whether an entry fits each.
pub fn push_lines(
    m: &Machine,
    index: &Index,
    templates: &Templates,
    regs: &[u32],
    u: &UnitCode,
    xs: &[Instr],
    lives: &[bool],
    out: &mut Vec<u8>,
) -> Result<bool, OutOfMemory>
    requires entries { length m.now.entries < 2 ^ 32 }
    requires index { IsIndexOf m.now index.now }
    requires templates { AreTemplatesOf m.now templates.now }
    ensures ok { (live : ℕ → ℕ → Bool) (b : ℕ) → ((i : ℕ) → live b i ≡ flag_at lives.now i) →
        OnOk result (out.new.items ≡ out.old.items
        ++ lines_from m.now (machine_at regs.now) (unit_of u.now) live b 0 (instrs_of xs.now)) }
    ensures fits { IfOk result (λ fits. fits ≡ true → FitFrom m.now lives.now 0 (instrs_of xs.now)) }
    ensures err { OnErr result (StartsWith out.new.items out.old.items) }
{
    let mut all = true;
    for (i, x) in xs.iter().enumerate() {
        let fits = push_line(
            m,
            index,
            templates,
            regs,
            u,
            &x.xs,
            cc_live_at(lives, i),
            out,
        )?;
        all = both(all, fits);
    }
    Ok(all)
}

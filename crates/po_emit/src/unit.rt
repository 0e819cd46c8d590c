//! The whole unit.
ghost use Rattle.std.specs.Prelude.{◌≡◌, ◌++◌, ◌<◌, ◌^◌, ℕ, Bool, true, List, OnOk, OnErr, IfOk, length, map, codes};
ghost use Rattle.std.specs.Io.{StartsWith};
ghost use Rattle.po_model.specs.Blocks.{code_of, block_of, IsCode};
ghost use Rattle.po_model.specs.UnitCodes.{unit_of};
ghost use Rattle.po_term.specs.Moves.{instrs_of};
ghost use Rattle.po_model.specs.Fitted.{IsRecognised};
ghost use Rattle.po_model.specs.Assembly.{label_line, lines_from, blocks_from, IsAssembly};
ghost use Rattle.po_live.specs.Flags.{flag_at, flags_at};
ghost use Rattle.po_recog.specs.Indexes.{IsIndexOf};
ghost use Rattle.po_emit.specs.Fits.{FitFrom, FitBlocksFrom};
ghost use Rattle.po_emit.specs.Regs.{machine_at};
ghost use Rattle.po_emit.specs.Templates.{AreTemplatesOf};

use crate::lines::{both, push_label_line, push_lines};
use crate::names::machine_regs;
use crate::templates::Templates;
use po_assign::Placed;
use po_live::cc_live_after;
use po_model::{Block, Machine, UnitCode};
use po_recog::Index;
use po_word::OutOfMemory;
use std::alloc::Global;

/// Whether `cc` is live after each instruction of the block of that number.
fn flags_at(lives: &[Vec<bool>], b: usize) -> &[bool]
    ensures { result.now ≡ flags_at lives.now b }
{
    match lives.get(b) {
        Some(after) => after,
        None => &[],
    }
}

/// Writes the lines of a block.
fn push_block(
    m: &Machine,
    index: &Index,
    templates: &Templates,
    regs: &[u32],
    u: &UnitCode,
    block: &Block,
    lives: &[bool],
    out: &mut Vec<u8>,
) -> Result<bool, OutOfMemory>
    requires entries { length m.now.entries < 2 ^ 32 }
    requires index { IsIndexOf m.now index.now }
    requires templates { AreTemplatesOf m.now templates.now }
    ensures ok { (live : ℕ → ℕ → Bool) (b : ℕ) → ((i : ℕ) → live b i ≡ flag_at lives.now i) →
        OnOk result (out.new.items ≡ out.old.items ++ label_line (unit_of u.now) block.now.label
        ++ lines_from m.now (machine_at regs.now) (unit_of u.now) live b 0 (instrs_of block.now.instrs.items)) }
    ensures fits { IfOk result (λ fits. fits ≡ true → FitFrom m.now lives.now 0 (instrs_of block.now.instrs.items)) }
    ensures err { OnErr result (StartsWith out.new.items out.old.items) }
{
    push_label_line(u, block.label, out)?;
    push_lines(m, index, templates, regs, u, &block.instrs, lives, out)
}

/// Writes the lines of all blocks.
fn push_blocks(
    m: &Machine,
    index: &Index,
    templates: &Templates,
    regs: &[u32],
    u: &UnitCode,
    lives: &[Vec<bool>],
    out: &mut Vec<u8>,
) -> Result<bool, OutOfMemory>
    requires entries { length m.now.entries < 2 ^ 32 }
    requires index { IsIndexOf m.now index.now }
    requires templates { AreTemplatesOf m.now templates.now }
    ensures ok { OnOk result (out.new.items ≡ out.old.items
        ++ blocks_from m.now (machine_at regs.now) (unit_of u.now) (λ b i. flag_at (flags_at lives.now b) i) 0
        (code_of u.now.code)) }
    ensures fits { IfOk result (λ fits. fits ≡ true → FitBlocksFrom m.now lives.now 0 (code_of u.now.code)) }
    ensures err { OnErr result (StartsWith out.new.items out.old.items) }
{
    let mut all = true;
    for (b, block) in u.code.blocks.iter().enumerate() {
        let fits = push_block(m, index, templates, regs, u, block, flags_at(lives, b), out)?;
        all = both(all, fits);
    }
    Ok(all)
}

/// Writes the line `NAME:` of a unit.
fn push_name_line(u: &UnitCode, out: &mut Vec<u8>) -> Result<(), OutOfMemory>
    ensures ok { OnOk result (out.new.items ≡ out.old.items ++ (unit_of u.now).name ++ codes ":\n") }
    ensures err { OnErr result (StartsWith out.new.items out.old.items) }
{
    out.extend_from_slice(u.name.bytes())?;
    out.extend_from_slice(b":\n")?;
    Ok(())
}

/// Writes the assembly of a unit, and after `OutOfMemory` maybe a part of it.
fn push_text(
    alloc: Global,
    m: &Machine,
    index: &Index,
    templates: &Templates,
    p: &Placed,
    out: &mut Vec<u8>,
) -> Result<bool, OutOfMemory>
    requires code { IsCode (code_of p.now.unit.code) }
    requires entries { length m.now.entries < 2 ^ 32 }
    requires index { IsIndexOf m.now index.now }
    requires templates { AreTemplatesOf m.now templates.now }
    ensures ok { OnOk result ((text : List ℕ)
        × IsAssembly m.now p.now.regs.items (unit_of p.now.unit) text × (out.new.items ≡ out.old.items ++ text)) }
    ensures fits { IfOk result (λ fits. fits ≡ true → IsRecognised (code_of p.now.unit.code) m.now) }
    ensures err { OnErr result (StartsWith out.new.items out.old.items) }
{
    let regs = machine_regs(alloc, &p.regs)?;
    let lives = cc_live_after(alloc, &p.unit.code)?;
    push_name_line(&p.unit, out)?;
    push_blocks(m, index, templates, &regs, &p.unit, &lives.after, out)
}

/// `emit` by an index and the templates of the machine, made once for many units, which says whether each instruction
/// fits an entry (docs/DESCRIPTION.md, "Templates").
pub fn emit_by(
    alloc: Global,
    m: &Machine,
    index: &Index,
    templates: &Templates,
    p: &Placed,
    out: &mut Vec<u8>,
) -> Result<bool, OutOfMemory>
    requires code { IsCode (code_of p.now.unit.code) }
    requires entries { length m.now.entries < 2 ^ 32 }
    requires index { IsIndexOf m.now index.now }
    requires templates { AreTemplatesOf m.now templates.now }
    ensures ok { OnOk result ((text : List ℕ)
        × IsAssembly m.now p.now.regs.items (unit_of p.now.unit) text × (out.new.items ≡ out.old.items ++ text)) }
    ensures fits { IfOk result (λ fits. fits ≡ true → IsRecognised (code_of p.now.unit.code) m.now) }
    ensures err { OnErr result (out.new.items ≡ out.old.items) }
{
    let before = out.len();
    let written = push_text(alloc, m, index, templates, p, out);
    if written.is_err() {
        out.truncate(before);
    }
    written
}

/// Writes the assembly of a unit at the end of `out`: the line `NAME:`, for each block the line `NAME.LABEL:` where it
/// has a label, and for each instruction the filled template of the first entry that it fits before placement. After
/// `OutOfMemory` `out` is as before (docs/DESCRIPTION.md, "Templates"). The machine has fewer than 2^32 entries, and a
/// control transfer stands only in the last instruction of a block.
pub fn emit(alloc: Global, m: &Machine, p: &Placed, out: &mut Vec<u8>) -> Result<(), OutOfMemory>
    requires code { IsCode (code_of p.now.unit.code) }
    requires entries { length m.now.entries < 2 ^ 32 }
    ensures ok { OnOk result ((text : List ℕ)
        × IsAssembly m.now p.now.regs.items (unit_of p.now.unit) text × (out.new.items ≡ out.old.items ++ text)) }
    ensures err { OnErr result (out.new.items ≡ out.old.items) }
{
    let index = Index::new(alloc, m)?;
    let templates = Templates::new(alloc, m)?;
    emit_by(alloc, m, &index, &templates, p, out)?;
    Ok(())
}

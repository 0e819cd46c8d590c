//! The last read of each virtual register of a code.
//!
//! The code is read once from front to back, and each read overwrites the one before.
ghost use Rattle.std.specs.Prelude.{◌≡◌, ◌+◌, ◌*◌, ◌<◌, ◌^◌, ◌||◌, ℕ, OnOk, IfOk, map, length, if◌then◌else◌};
ghost use Rattle.po_term.specs.Terms.{tree_of};
ghost use Rattle.po_term.specs.Moves.{move_of, moves_of, instr_of, instrs_of};
ghost use Rattle.po_model.specs.declared.var.Var.TheVariants.{Reg as RegVar};
ghost use Rattle.po_term.specs.declared.term.Reg.TheVariants.{Virt};
ghost use Rattle.po_model.specs.Blocks.{block_of};
ghost use Rattle.po_model.specs.LiveAfter.{is_reg, term_reads, move_reads, reads};
ghost use Rattle.po_model.specs.UnitCodes.{flat};
ghost use Rattle.po_model.specs.Placement.{last_read};
ghost use Rattle.po_assign.specs.Reads.{read_at};

use crate::numbered::put_at;
use po_model::Block;
use po_term::{Cond, Instr, Reg, Term, Transfer};
use po_word::OutOfMemory;
use std::alloc::Global;

/// As many registers as most codes have.
const ROOM: usize = 64;

fn note_register(last: &mut Vec<u32>, point: u32, reg: Reg) -> Result<(), OutOfMemory>
    ensures { OnOk result ((v : ℕ) →
        read_at last.new.items v ≡ (if is_reg reg (RegVar (Virt v)) then point else read_at last.old.items v)) }
{
    if let Reg::Virt(number) = reg {
        put_at(last, number, point)?;
    }
    Ok(())
}

/// Notes the registers of a term. It recurses as deep as the term is.
fn note_term(last: &mut Vec<u32>, point: u32, t: &Term) -> Result<(), OutOfMemory>
    ensures { OnOk result ((v : ℕ) →
        read_at last.new.items v ≡
        (if term_reads (tree_of t.now) (RegVar (Virt v)) then point else read_at last.old.items v)) }
{
    match t {
        Term::Num(_) => Ok(()),
        Term::Addr(_) => Ok(()),
        Term::Reg(reg) => note_register(last, point, *reg),
        Term::Mem(x) => note_term(last, point, x),
        Term::Un(_, x) => note_term(last, point, x),
        Term::Bin(_, x, y) => {
            note_term(last, point, x)?;
            note_term(last, point, y)
        }
    }
}

fn note_two(last: &mut Vec<u32>, point: u32, x: &Term, y: &Term) -> Result<(), OutOfMemory>
    ensures { OnOk result ((v : ℕ) →
        read_at last.new.items v ≡
        (if term_reads (tree_of x.now) (RegVar (Virt v)) || term_reads (tree_of y.now) (RegVar (Virt v)) then point
        else read_at last.old.items v)) }
{
    note_term(last, point, x)?;
    note_term(last, point, y)
}

fn note_transfer(last: &mut Vec<u32>, point: u32, t: &Transfer) -> Result<(), OutOfMemory>
    ensures { OnOk result ((v : ℕ) →
        read_at last.new.items v ≡
        (if move_reads (move_of t.now) (RegVar (Virt v)) then point else read_at last.old.items v)) }
{
    match t {
        Transfer::Set(_, x) => note_term(last, point, x),
        Transfer::Cc(x, y) => note_two(last, point, x, y),
        Transfer::Store(x, y) => note_two(last, point, x, y),
        Transfer::If(Cond::Two(x, y), _, _) => note_two(last, point, x, y),
        Transfer::If(Cond::Cc, _, _) => Ok(()),
        Transfer::Goto(_) => Ok(()),
        Transfer::Call(_, _) => Ok(()),
        Transfer::Ret => Ok(()),
    }
}

fn note_instr(last: &mut Vec<u32>, point: u32, xs: &[Transfer]) -> Result<(), OutOfMemory>
    ensures { OnOk result ((v : ℕ) →
        read_at last.new.items v ≡
        (if reads (moves_of xs.now) (RegVar (Virt v)) then point else read_at last.old.items v)) }
{
    for t in xs {
        note_transfer(last, point, t)?;
    }
    Ok(())
}

/// Notes the reads of the instructions of a block, whose first one has the number `first`.
fn note_block(last: &mut Vec<u32>, first: u32, xs: &[Instr]) -> Result<(), OutOfMemory>
    requires { first + length xs.now < 2 ^ 29 }
    ensures { OnOk result ((v : ℕ) →
        read_at last.new.items v ≡ last_read v (read_at last.old.items v) first (instrs_of xs.now)) }
{
    for (index, x) in xs.iter().enumerate() {
        note_instr(last, 2 * (first + index as u32), &x.xs)?;
    }
    Ok(())
}

/// The point of the last read of each virtual register of a code, by its number, and 0 where it isn't read.
pub fn last_reads(alloc: Global, blocks: &[Block]) -> Result<Vec<u32>, OutOfMemory>
    requires { length (flat (map block_of blocks.now)) < 2 ^ 29 }
    ensures { IfOk result (λ last. (v : ℕ) → read_at last.items v ≡ last_read v 0 0 (flat (map block_of blocks.now))) }
{
    let mut last = Vec::with_capacity(alloc, ROOM)?;
    let mut first = 0;
    for block in blocks {
        note_block(&mut last, first, &block.instrs)?;
        first += block.instrs.len() as u32;
    }
    Ok(last)
}

//! The words of a rule's shape.
ghost use Rattle.std.specs.Prelude.{◌≡◌, ◌++◌, OnOk, IfOk};
ghost use Rattle.po_word.specs.Views.{expr_of};
ghost use Rattle.po_model.specs.Holed.{hole_tree_of, hole_branch_of, hole_move_of, hole_moves_of, shape_of};
ghost use Rattle.po_key.specs.ShapeWords.{expr_words, register_words, tree_words, ending_words, move_words};
ghost use Rattle.po_key.specs.ShapeWords.{moves_words, registers_words, shape_words};

use crate::numbers::{bin_word, bit_word, rel_word, un_word};
use po_model::{PCond, PReg, PTerm, PTransfer, Shape};
use po_term::Reg;
use po_word::{CExpr, OutOfMemory, Rel, push};
use std::alloc::Global;

fn write_expr(out: &mut Vec<usize>, e: &CExpr) -> Result<(), OutOfMemory>
    ensures { OnOk result (out.new.items ≡ out.old.items ++ expr_words (expr_of e.now)) }
{
    match e {
        CExpr::Hole(k) => {
            push(out, 0)?;
            push(out, usize::from(*k))
        }
        CExpr::Num(c) => {
            push(out, 1)?;
            push(out, *c as usize)
        }
        CExpr::Un(op, x) => {
            push(out, 2)?;
            push(out, un_word(*op))?;
            write_expr(out, x)
        }
        CExpr::Bin(op, x, y) => {
            push(out, 3)?;
            push(out, bin_word(*op))?;
            write_expr(out, x)?;
            write_expr(out, y)
        }
        CExpr::Log2(x) => {
            push(out, 4)?;
            write_expr(out, x)
        }
    }
}

fn write_register(out: &mut Vec<usize>, r: PReg) -> Result<(), OutOfMemory>
    ensures { OnOk result (out.new.items ≡ out.old.items ++ register_words r) }
{
    match r {
        PReg::Hole(k) => {
            push(out, 5)?;
            push(out, usize::from(k))
        }
        PReg::Fixed(Reg::Virt(n)) => {
            push(out, 6)?;
            push(out, n as usize)
        }
        PReg::Fixed(Reg::Fp) => push(out, 7),
        PReg::Fixed(Reg::Rv) => push(out, 8),
        PReg::Fixed(Reg::Arg(n)) => {
            push(out, 9)?;
            push(out, usize::from(n))
        }
    }
}

fn write_term(out: &mut Vec<usize>, t: &PTerm) -> Result<(), OutOfMemory>
    ensures { OnOk result (out.new.items ≡ out.old.items ++ tree_words (hole_tree_of t.now)) }
{
    match t {
        PTerm::Const(e) => write_expr(out, e),
        PTerm::Reg(r) => write_register(out, *r),
        PTerm::Addr(k) => {
            push(out, 10)?;
            push(out, usize::from(*k))
        }
        PTerm::Mem(x) => {
            push(out, 11)?;
            write_term(out, x)
        }
        PTerm::Un(op, x) => {
            push(out, 12)?;
            push(out, un_word(*op))?;
            write_term(out, x)
        }
        PTerm::Bin(op, x, y) => {
            push(out, 13)?;
            push(out, bin_word(*op))?;
            write_term(out, x)?;
            write_term(out, y)
        }
    }
}

fn write_branch(out: &mut Vec<usize>, cond: &PCond, rel: Rel) -> Result<(), OutOfMemory>
    ensures { OnOk result (out.new.items ≡ out.old.items ++ ending_words (hole_branch_of cond.now rel)) }
{
    match cond {
        PCond::Cc => {
            push(out, 15)?;
            push(out, rel_word(rel))?;
            push(out, 0)
        }
        PCond::Two(x, y) => {
            push(out, 16)?;
            push(out, rel_word(rel))?;
            push(out, 0)?;
            write_term(out, x)?;
            write_term(out, y)
        }
    }
}

fn write_transfer(out: &mut Vec<usize>, t: &PTransfer) -> Result<(), OutOfMemory>
    ensures { OnOk result (out.new.items ≡ out.old.items ++ move_words (hole_move_of t.now)) }
{
    match t {
        PTransfer::Set(r, x) => {
            write_register(out, *r)?;
            write_term(out, x)
        }
        PTransfer::Cc(x, y) => {
            push(out, 19)?;
            write_term(out, x)?;
            write_term(out, y)
        }
        PTransfer::Store(x, y) => {
            push(out, 20)?;
            write_term(out, x)?;
            write_term(out, y)
        }
        PTransfer::Goto => {
            push(out, 14)?;
            push(out, 0)
        }
        PTransfer::If(cond, rel) => write_branch(out, cond, *rel),
        PTransfer::Call(k, n) => {
            push(out, 17)?;
            push(out, usize::from(*k))?;
            push(out, usize::from(*n))
        }
        PTransfer::Ret => push(out, 18),
    }
}

/// The transfers of one instruction, and its end.
fn write_transfers(out: &mut Vec<usize>, xs: &[PTransfer]) -> Result<(), OutOfMemory>
    ensures { OnOk result (out.new.items ≡ out.old.items ++ moves_words (hole_moves_of xs.now)) }
{
    for t in xs {
        write_transfer(out, t)?;
    }
    push(out, 21)
}

fn write_registers(out: &mut Vec<usize>, rs: &[PReg]) -> Result<(), OutOfMemory>
    ensures { OnOk result (out.new.items ≡ out.old.items ++ registers_words rs.now) }
{
    for r in rs {
        write_register(out, *r)?;
    }
    Ok(())
}

/// The words of a shape (docs/RULES.md, "The words of a shape"). It fails only where memory is refused.
pub fn shape_words(alloc: Global, s: &Shape) -> Result<Vec<usize>, OutOfMemory>
    ensures { IfOk result (λ ws. ws.items ≡ shape_words (shape_of s.now)) }
{
    let mut out = Vec::new(alloc);
    push(&mut out, bit_word(s.cc))?;
    write_transfers(&mut out, &s.a)?;
    write_transfers(&mut out, &s.b)?;
    write_registers(&mut out, &s.live)?;
    Ok(out)
}

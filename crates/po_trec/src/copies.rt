//! Copies of terms and transfers with holes.
ghost use Rattle.std.specs.Prelude.{◌≡◌, ◌++◌, ◌∷◌, [], IfOk, OnOk};
ghost use Rattle.po_term.specs.Moves.{Ends};
ghost use Rattle.po_model.specs.Holed.{hole_tree_of, hole_branch_of, hole_move_of, hole_moves_of};

use po_model::{PCond, PTerm, PTransfer};
use po_word::{OutOfMemory, Rel, copy_cexpr, push};
use std::alloc::Global;

/// A term that equals t. It recurses as deep as the term.
pub fn copy_pterm(alloc: Global, t: &PTerm) -> Result<PTerm, OutOfMemory>
    ensures { IfOk result (λ c. hole_tree_of c ≡ hole_tree_of t.now) }
{
    match t {
        PTerm::Const(e) => Ok(PTerm::Const(copy_cexpr(alloc, e)?)),
        PTerm::Reg(r) => Ok(PTerm::Reg(*r)),
        PTerm::Addr(k) => Ok(PTerm::Addr(*k)),
        PTerm::Mem(x) => Ok(PTerm::Mem(Box::new(alloc, copy_pterm(alloc, x)?)?)),
        PTerm::Un(op, x) => Ok(PTerm::Un(*op, Box::new(alloc, copy_pterm(alloc, x)?)?)),
        PTerm::Bin(op, x, y) => Ok(PTerm::Bin(
            *op,
            Box::new(alloc, copy_pterm(alloc, x)?)?,
            Box::new(alloc, copy_pterm(alloc, y)?)?,
        )),
    }
}

/// A branch that equals the one on `cond`.
fn copy_branch(alloc: Global, cond: &PCond, rel: Rel) -> Result<PTransfer, OutOfMemory>
    ensures { IfOk result (λ c. hole_move_of c ≡ Ends (hole_branch_of cond.now rel)) }
{
    match cond {
        PCond::Cc => Ok(PTransfer::If(PCond::Cc, rel)),
        PCond::Two(t, u) => {
            let t = copy_pterm(alloc, t)?;
            let u = copy_pterm(alloc, u)?;
            Ok(PTransfer::If(PCond::Two(t, u), rel))
        }
    }
}

/// A transfer that equals t.
fn copy_transfer(alloc: Global, t: &PTransfer) -> Result<PTransfer, OutOfMemory>
    ensures { IfOk result (λ c. hole_move_of c ≡ hole_move_of t.now) }
{
    match t {
        PTransfer::Set(r, a) => Ok(PTransfer::Set(*r, copy_pterm(alloc, a)?)),
        PTransfer::Cc(a, b) => Ok(PTransfer::Cc(copy_pterm(alloc, a)?, copy_pterm(alloc, b)?)),
        PTransfer::Store(a, b) => {
            Ok(PTransfer::Store(copy_pterm(alloc, a)?, copy_pterm(alloc, b)?))
        }
        PTransfer::Goto => Ok(PTransfer::Goto),
        PTransfer::If(cond, rel) => copy_branch(alloc, cond, *rel),
        PTransfer::Call(k, n) => Ok(PTransfer::Call(*k, *n)),
        PTransfer::Ret => Ok(PTransfer::Ret),
    }
}

fn add_copy(alloc: Global, copies: &mut Vec<PTransfer>, t: &PTransfer) -> Result<(), OutOfMemory>
    ensures { OnOk result
        (hole_moves_of copies.new.items ≡ hole_moves_of copies.old.items ++ hole_move_of t.now ∷ []) }
{
    let copy = copy_transfer(alloc, t)?;
    push(copies, copy)
}

/// Transfers that equal these.
pub fn copy_transfers(alloc: Global, ts: &[PTransfer]) -> Result<Vec<PTransfer>, OutOfMemory>
    ensures { IfOk result (λ copies. hole_moves_of copies.items ≡ hole_moves_of ts.now) }
{
    let mut copies = Vec::new(alloc);
    for t in ts {
        add_copy(alloc, &mut copies, t)?;
    }
    Ok(copies)
}

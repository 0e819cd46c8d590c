//! A term with holes that is read after an instruction, as a term that is read before it.
ghost use Rattle.std.specs.Prelude.{◌≡◌, IfOk};
ghost use Rattle.po_term.specs.Tree.{Read};
ghost use Rattle.po_term.specs.Kinds.{exprs};
ghost use Rattle.po_model.specs.Parts.{right_at, store_of};
ghost use Rattle.po_model.specs.Forward.{right_or, read_after, forward};
ghost use Rattle.po_model.specs.Holed.{InPReg, hole_tree_of, hole_moves_of};
ghost use Rattle.po_model.specs.Generalised.{hole_leaves};
ghost use Rattle.po_trec.specs.Read.{tree_made, Answers};

use crate::addresses::compare;
use crate::copies::copy_pterm;
use crate::parts::{right_of, stored};
use po_model::{PReg, PTerm, PTransfer, Values};
use po_term::Alias;
use po_tsimp::{Path, binary_made, unary_made};
use po_word::{OutOfMemory, copy_cexpr};
use std::alloc::Global;

/// `M[q]`
fn read(alloc: Global, q: PTerm) -> Result<PTerm, OutOfMemory>
    ensures { IfOk result (λ r. hole_tree_of r ≡ Read (hole_tree_of q)) }
{
    Ok(PTerm::Mem(Box::new(alloc, q)?))
}

/// What a register becomes.
fn forward_register(alloc: Global, a: &[PTransfer], r: PReg) -> Result<PTerm, OutOfMemory>
    ensures { IfOk result (λ u. hole_tree_of u
        ≡ right_or (right_at hole_leaves (InPReg r) (hole_moves_of a.now)) (InPReg r)) }
{
    match right_of(a, r) {
        Some(u) => copy_pterm(alloc, u),
        None => Ok(PTerm::Reg(r)),
    }
}

/// The word at q after an instruction.
#[tactic(auto, using(po_tsimp::proofs::Paths::extended_append, po_tsimp::proofs::Paths::extended_nothing))]
fn forward_read(
    alloc: Global,
    a: &[PTransfer],
    q: PTerm,
    holes: &[u32],
    path: &mut Path,
) -> Result<Option<PTerm>, OutOfMemory>
    ensures { Answers tree_made holes.now result path.old path.new
        (read_after (exprs holes.now) hole_leaves (store_of (hole_moves_of a.now)) (hole_tree_of q)) }
{
    match stored(a) {
        None => Ok(Some(read(alloc, q)?)),
        Some((address, value)) => match compare(alloc, address, &q, holes, path)? {
            Alias::Same => Ok(Some(copy_pterm(alloc, value)?)),
            Alias::Apart => Ok(Some(read(alloc, q)?)),
            Alias::Maybe => Ok(None),
        },
    }
}

/// What the term t, read after the transfers a, is before them. None where some read of t may or may not meet a's
/// store.
#[tactic(auto, using(crate::proofs::Symbols::leaf_forwarded))]
pub fn forwarded(
    alloc: Global,
    a: &[PTransfer],
    t: &PTerm,
    holes: &[u32],
    path: &mut Path,
) -> Result<Option<PTerm>, OutOfMemory>
    ensures { Answers tree_made holes.now result path.old path.new
        (forward (exprs holes.now) hole_leaves (hole_moves_of a.now) (hole_tree_of t.now)) }
{
    match t {
        PTerm::Const(c) => Ok(Some(PTerm::Const(copy_cexpr(alloc, c)?))),
        PTerm::Reg(r) => Ok(Some(forward_register(alloc, a, *r)?)),
        PTerm::Addr(k) => Ok(Some(PTerm::Addr(*k))),
        PTerm::Mem(x) => match forwarded(alloc, a, x, holes, path)? {
            Some(q) => forward_read(alloc, a, q, holes, path),
            None => Ok(None),
        },
        PTerm::Un(op, x) => match forwarded(alloc, a, x, holes, path)? {
            Some(x) => Ok(Some(unary_made(alloc, *op, x, holes, path)?)),
            None => Ok(None),
        },
        PTerm::Bin(op, x, y) => match forwarded(alloc, a, x, holes, path)? {
            Some(x) => match forwarded(alloc, a, y, holes, path)? {
                Some(y) => Ok(Some(binary_made(alloc, *op, x, y, holes, path)?)),
                None => Ok(None),
            },
            None => Ok(None),
        },
    }
}

/// What the term t, read after the transfers a, is before them (docs/RULES.md). None where some read of t may or may
/// not meet a's store.
pub fn forward_p(
    alloc: Global,
    a: &[PTransfer],
    t: &PTerm,
    v: &Values,
    path: &mut Path,
) -> Result<Option<PTerm>, OutOfMemory>
    ensures { Answers tree_made v.now.consts.items result path.old path.new
        (forward (exprs v.now.consts.items) hole_leaves (hole_moves_of a.now) (hole_tree_of t.now)) }
{
    forwarded(alloc, a, t, &v.consts, path)
}

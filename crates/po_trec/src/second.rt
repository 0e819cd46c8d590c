//! The transfers of the second instruction of a shape, read through the first: their terms from left to right, and
//! then a branch on two constants is decided. `None` says that what becomes of a transfer isn't known.
ghost use Rattle.std.specs.Prelude.{◌≡◌};
ghost use Rattle.po_term.specs.Moves.{SetTo, CcTo, StoreTo, Ends, IfTwo};
ghost use Rattle.po_term.specs.Kinds.{exprs};
ghost use Rattle.po_term.specs.Simplified.{decided};
ghost use Rattle.po_model.specs.Parts.{cc_of};
ghost use Rattle.po_model.specs.Joined.{forward_branch, forward_move, forward_moves};
ghost use Rattle.po_model.specs.Holed.{label_hole, hole_tree_of, hole_branch_of, hole_move_of, hole_moves_of};
ghost use Rattle.po_model.specs.Generalised.{hole_leaves, same_hole_register};
ghost use Rattle.po_trec.specs.Read.{list_of, list_made, Answers};

use crate::copies::copy_pterm;
use crate::forwarding::forwarded;
use crate::lists::{followed, known, none_or_one, one};
use crate::parts::compared;
use crate::transfers::decide;
use po_model::{PCond, PReg, PTerm, PTransfer};
use po_tsimp::Path;
use po_word::{OutOfMemory, Rel};
use std::alloc::Global;

/// A set with its term forwarded.
#[tactic(auto, using(po_tsimp::proofs::Paths::extended_append, po_tsimp::proofs::Paths::extended_nothing))]
fn forward_set(
    alloc: Global,
    a: &[PTransfer],
    r: PReg,
    t: &PTerm,
    holes: &[u32],
    path: &mut Path,
) -> Result<Option<Vec<PTransfer>>, OutOfMemory>
    ensures { Answers list_made holes.now result path.old path.new
        (forward_move (exprs holes.now) hole_leaves (hole_moves_of a.now) (SetTo r (hole_tree_of t.now))) }
{
    match forwarded(alloc, a, t, holes, path)? {
        Some(t) => known(alloc, PTransfer::Set(r, t)),
        None => Ok(None),
    }
}

/// A comparison with its terms forwarded.
#[tactic(auto, using(po_tsimp::proofs::Paths::extended_append, po_tsimp::proofs::Paths::extended_nothing))]
fn forward_compared(
    alloc: Global,
    a: &[PTransfer],
    t: &PTerm,
    u: &PTerm,
    holes: &[u32],
    path: &mut Path,
) -> Result<Option<Vec<PTransfer>>, OutOfMemory>
    ensures { Answers list_made holes.now result path.old path.new
        (forward_move (exprs holes.now) hole_leaves (hole_moves_of a.now)
        (CcTo (hole_tree_of t.now) (hole_tree_of u.now))) }
{
    match forwarded(alloc, a, t, holes, path)? {
        Some(t) => match forwarded(alloc, a, u, holes, path)? {
            Some(u) => known(alloc, PTransfer::Cc(t, u)),
            None => Ok(None),
        },
        None => Ok(None),
    }
}

/// A store with its terms forwarded.
#[tactic(auto, using(po_tsimp::proofs::Paths::extended_append, po_tsimp::proofs::Paths::extended_nothing))]
fn forward_stored(
    alloc: Global,
    a: &[PTransfer],
    t: &PTerm,
    u: &PTerm,
    holes: &[u32],
    path: &mut Path,
) -> Result<Option<Vec<PTransfer>>, OutOfMemory>
    ensures { Answers list_made holes.now result path.old path.new
        (forward_move (exprs holes.now) hole_leaves (hole_moves_of a.now)
        (StoreTo (hole_tree_of t.now) (hole_tree_of u.now))) }
{
    match forwarded(alloc, a, t, holes, path)? {
        Some(t) => match forwarded(alloc, a, u, holes, path)? {
            Some(u) => known(alloc, PTransfer::Store(t, u)),
            None => Ok(None),
        },
        None => Ok(None),
    }
}

/// What a branch on two terms becomes.
fn decided_list(
    alloc: Global,
    t: PTerm,
    u: PTerm,
    rel: Rel,
    holes: &[u32],
    path: &mut Path,
) -> Result<Vec<PTransfer>, OutOfMemory>
    ensures { Answers list_of holes.now result path.old path.new
        (decided (exprs holes.now) same_hole_register (hole_tree_of t) (hole_tree_of u) rel label_hole) }
{
    let made = decide(alloc, t, u, rel, holes, path)?;
    none_or_one(alloc, made)
}

/// What a branch on `cc` becomes: a branch on what the first instruction compares, where it does.
fn forward_cc(
    alloc: Global,
    a: &[PTransfer],
    rel: Rel,
    holes: &[u32],
    path: &mut Path,
) -> Result<Vec<PTransfer>, OutOfMemory>
    ensures { Answers list_of holes.now result path.old path.new
        (forward_branch (exprs holes.now) hole_leaves (cc_of (hole_moves_of a.now)) rel label_hole) }
{
    match compared(a) {
        Some((t, u)) => {
            let t = copy_pterm(alloc, t)?;
            let u = copy_pterm(alloc, u)?;
            decided_list(alloc, t, u, rel, holes, path)
        }
        None => one(alloc, PTransfer::If(PCond::Cc, rel)),
    }
}

/// What a branch on two terms becomes, read through the first instruction.
#[tactic(auto, using(po_tsimp::proofs::Paths::extended_append, po_tsimp::proofs::Paths::extended_nothing))]
fn forward_branch_on_two(
    alloc: Global,
    a: &[PTransfer],
    t: &PTerm,
    u: &PTerm,
    rel: Rel,
    holes: &[u32],
    path: &mut Path,
) -> Result<Option<Vec<PTransfer>>, OutOfMemory>
    ensures { Answers list_made holes.now result path.old path.new
        (forward_move (exprs holes.now) hole_leaves (hole_moves_of a.now)
        (Ends (IfTwo (hole_tree_of t.now) (hole_tree_of u.now) rel label_hole))) }
{
    match forwarded(alloc, a, t, holes, path)? {
        Some(t) => match forwarded(alloc, a, u, holes, path)? {
            Some(u) => Ok(Some(decided_list(alloc, t, u, rel, holes, path)?)),
            None => Ok(None),
        },
        None => Ok(None),
    }
}

/// What a branch becomes.
#[tactic(auto, using(po_tsimp::proofs::Paths::extended_append, po_tsimp::proofs::Paths::extended_nothing))]
fn forward_branch(
    alloc: Global,
    a: &[PTransfer],
    cond: &PCond,
    rel: Rel,
    holes: &[u32],
    path: &mut Path,
) -> Result<Option<Vec<PTransfer>>, OutOfMemory>
    ensures { Answers list_made holes.now result path.old path.new
        (forward_move (exprs holes.now) hole_leaves (hole_moves_of a.now) (Ends (hole_branch_of cond.now rel))) }
{
    match cond {
        PCond::Cc => Ok(Some(forward_cc(alloc, a, rel, holes, path)?)),
        PCond::Two(t, u) => forward_branch_on_two(alloc, a, t, u, rel, holes, path),
    }
}

/// What a transfer becomes that is read after the first instruction.
fn forward_transfer(
    alloc: Global,
    a: &[PTransfer],
    t: &PTransfer,
    holes: &[u32],
    path: &mut Path,
) -> Result<Option<Vec<PTransfer>>, OutOfMemory>
    ensures { Answers list_made holes.now result path.old path.new
        (forward_move (exprs holes.now) hole_leaves (hole_moves_of a.now) (hole_move_of t.now)) }
{
    match t {
        PTransfer::Set(r, t) => forward_set(alloc, a, *r, t, holes, path),
        PTransfer::Cc(t, u) => forward_compared(alloc, a, t, u, holes, path),
        PTransfer::Store(t, u) => forward_stored(alloc, a, t, u, holes, path),
        PTransfer::Goto => known(alloc, PTransfer::Goto),
        PTransfer::If(cond, rel) => forward_branch(alloc, a, cond, *rel, holes, path),
        PTransfer::Call(k, n) => known(alloc, PTransfer::Call(*k, *n)),
        PTransfer::Ret => known(alloc, PTransfer::Ret),
    }
}

/// What transfers become that are read after the first instruction.
#[tactic(auto, using(po_tsimp::proofs::Paths::extended_append, po_tsimp::proofs::Paths::extended_nothing))]
pub fn forward_transfers(
    alloc: Global,
    a: &[PTransfer],
    ts: &[PTransfer],
    holes: &[u32],
    path: &mut Path,
) -> Result<Option<Vec<PTransfer>>, OutOfMemory>
    ensures { Answers list_made holes.now result path.old path.new
        (forward_moves (exprs holes.now) hole_leaves (hole_moves_of a.now) (hole_moves_of ts.now)) }
{
    match ts {
        [] => Ok(Some(Vec::new(alloc))),
        [t, rest @ ..] => match forward_transfer(alloc, a, t, holes, path)? {
            Some(xs) => match forward_transfers(alloc, a, rest, holes, path)? {
                Some(ys) => Ok(Some(followed(xs, ys)?)),
                None => Ok(None),
            },
            None => Ok(None),
        },
    }
}

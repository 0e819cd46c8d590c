//! The two instructions of a shape made one list of transfers, and what becomes of the pairs of a shape.
ghost use Rattle.std.specs.Prelude.{◌≡◌, ◌<◌, ◌^◌, ℕ, length, IfOk, Some, filter};
ghost use Rattle.po_term.specs.Kinds.{exprs};
ghost use Rattle.po_model.specs.Parts.{store_of};
ghost use Rattle.po_model.specs.Joined.{is_same, is_wanted, covers, with_forwarded, join_simple, listed, joined};
ghost use Rattle.po_model.specs.Holed.{hole_moves_of, shape_of, result_of};
ghost use Rattle.po_model.specs.Generalised.{hole_leaves, is_live_in, reading};
ghost use Rattle.po_trec.specs.Read.{Answers};
ghost use Rattle.po_trec.specs.Joint.{joint_of};

use crate::addresses::compare;
use crate::choosing::{goes_away, has_control, keep_wanted};
use crate::copies::copy_transfers;
use crate::order::assemble;
use crate::parts::stored;
use crate::recognising::as_one;
use crate::second::forward_transfers;
use crate::transfers::simplify_transfers;
use po_model::{Machine, PTransfer, Pattern, Shape, Values};
use po_term::Alias;
use po_tsimp::Path;
use po_word::OutOfMemory;
use std::alloc::Global;

/// What the two instructions of a shape come to (docs/RULES.md).
#[derive(Drop)]
pub enum JoinedP {
    /// They stay two.
    Not,
    /// Nothing is left of them.
    Empty,
    /// A list of transfers, which may be one that no machine has.
    List(Vec<PTransfer>),
}

fn is_same(meets: Alias) -> bool
    ensures { result ≡ is_same meets }
{
    match meets {
        Alias::Same => true,
        Alias::Apart => false,
        Alias::Maybe => false,
    }
}

/// Whether the store of b, where both store, leaves nothing of that of a: whether their addresses are the same.
#[tactic(auto, using(po_tsimp::proofs::Paths::extended_append, po_tsimp::proofs::Paths::extended_nothing))]
fn covers(
    alloc: Global,
    a: &[PTransfer],
    b: &[PTransfer],
    holes: &[u32],
    path: &mut Path,
) -> Result<bool, OutOfMemory>
    ensures { Answers (λ c. c) holes.now result path.old path.new
        (covers (exprs holes.now) hole_leaves (store_of (hole_moves_of a.now)) (store_of (hole_moves_of b.now))) }
{
    match stored(a) {
        Some((p, _)) => match stored(b) {
            Some((q, _)) => Ok(is_same(compare(alloc, p, q, holes, path)?)),
            None => Ok(true),
        },
        None => Ok(true),
    }
}

/// A list of transfers, or nothing.
fn list(xs: Vec<PTransfer>) -> JoinedP
    ensures { joint_of result ≡ listed (hole_moves_of xs.items) }
{
    if xs.is_empty() {
        JoinedP::Empty
    } else {
        JoinedP::List(xs)
    }
}

/// What is wanted of the second instruction.
fn wanted_of(alloc: Global, s: &Shape) -> Result<Vec<PTransfer>, OutOfMemory>
    ensures { IfOk result (λ xs. hole_moves_of xs.items ≡
        filter (is_wanted (is_live_in (shape_of s.now)) s.now.cc) (hole_moves_of s.now.b.items)) }
{
    let mut wanted = copy_transfers(alloc, &s.b)?;
    keep_wanted(&mut wanted, s);
    Ok(wanted)
}

/// What the simplified first instruction a comes to with b, which is what is wanted of the second, read after a.
#[tactic(auto, using(po_tsimp::proofs::Paths::extended_append, po_tsimp::proofs::Paths::extended_nothing))]
fn join_forwarded(
    alloc: Global,
    a: Vec<PTransfer>,
    wanted: &[PTransfer],
    b: Vec<PTransfer>,
    s: &Shape,
    holes: &[u32],
    path: &mut Path,
) -> Result<JoinedP, OutOfMemory>
    ensures { Answers joint_of holes.now result path.old path.new
        (with_forwarded (exprs holes.now) hole_leaves (is_live_in (shape_of s.now)) s.now.cc
        (hole_moves_of a.items) (hole_moves_of wanted.now) (Some (hole_moves_of b.items))) }
{
    if covers(alloc, &a, &b, holes, path)? {
        let all = assemble(alloc, a, wanted, b, s)?;
        Ok(list(all))
    } else {
        Ok(JoinedP::Not)
    }
}

/// What the simplified first instruction a comes to with what is wanted of the second.
#[tactic(auto, using(po_tsimp::proofs::Paths::extended_append, po_tsimp::proofs::Paths::extended_nothing))]
fn join_simple(
    alloc: Global,
    a: Vec<PTransfer>,
    wanted: &[PTransfer],
    s: &Shape,
    holes: &[u32],
    path: &mut Path,
) -> Result<JoinedP, OutOfMemory>
    ensures { Answers joint_of holes.now result path.old path.new
        (join_simple (exprs holes.now) hole_leaves (is_live_in (shape_of s.now)) s.now.cc
        (hole_moves_of a.items) (hole_moves_of wanted.now)) }
{
    match forward_transfers(alloc, &a, wanted, holes, path)? {
        Some(b) => join_forwarded(alloc, a, wanted, b, s, holes, path),
        None => Ok(JoinedP::Not),
    }
}

/// What the two instructions of a shape come to, before a machine is asked (docs/RULES.md). The questions about its
/// constants are answered by the words of the holes, and go onto the path.
#[tactic(auto, using(po_tsimp::proofs::Paths::extended_append, po_tsimp::proofs::Paths::extended_nothing))]
pub fn together_p(
    alloc: Global,
    s: &Shape,
    v: &Values,
    path: &mut Path,
) -> Result<JoinedP, OutOfMemory>
    ensures { Answers joint_of v.now.consts.items result path.old path.new
        (joined (exprs v.now.consts.items) hole_leaves (is_live_in (shape_of s.now)) s.now.cc
        (hole_moves_of s.now.a.items) (hole_moves_of s.now.b.items)) }
{
    if has_control(&s.a) || goes_away(&s.b) {
        return Ok(JoinedP::Not);
    }
    let a = simplify_transfers(alloc, &s.a, &v.consts, path)?;
    let wanted = wanted_of(alloc, s)?;
    join_simple(alloc, a, &wanted, s, &v.consts, path)
}

/// What becomes of the pairs of a shape on a machine (docs/RULES.md). The questions about its constants are answered
/// by the words of the holes, and go onto the path.
#[tactic(auto, using(po_tsimp::proofs::Paths::extended_append, po_tsimp::proofs::Paths::extended_nothing))]
pub fn combine_p(
    alloc: Global,
    m: &Machine,
    s: &Shape,
    v: &Values,
    path: &mut Path,
) -> Result<Pattern, OutOfMemory>
    requires { length m.now.entries < 2 ^ 32 }
    ensures { Answers result_of v.now.consts.items result path.old path.new
        (reading m.now v.now.consts.items (shape_of s.now)) }
{
    match together_p(alloc, s, v, path)? {
        JoinedP::Not => Ok(Pattern::Keep),
        JoinedP::Empty => Ok(Pattern::Nothing),
        JoinedP::List(xs) => as_one(alloc, m, xs, s.cc, &v.consts, path),
    }
}

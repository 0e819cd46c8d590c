//! Transfers of a shape put into the order sets, cc, store, control.
//!
//! `ByKind` holds the transfers of each kind in the order in which they came.
ghost use Rattle.std.specs.Prelude.{◌≡◌, ◌++◌, ◌∷◌, [], List, OnOk, IfOk};
ghost use Rattle.po_model.specs.Joined.{in_order, assembled};
ghost use Rattle.po_model.specs.Holed.{HoleMove, hole_move_of, hole_moves_of, shape_of};
ghost use Rattle.po_model.specs.Generalised.{hole_leaves, is_live_in};
ghost use Rattle.po_trec.specs.Order.{kinds_of, with_rest, listing};

use crate::choosing::{keep_beside, keep_moving};
use crate::lists::followed;
use po_model::{PTransfer, Shape};
use po_word::{OutOfMemory, push};
use std::alloc::Global;

#[derive(Drop)]
pub struct ByKind {
    pub sets: Vec<PTransfer>,
    pub comparisons: Vec<PTransfer>,
    pub stores: Vec<PTransfer>,
    pub endings: Vec<PTransfer>,
}

/// Without a transfer.
fn none_yet(alloc: Global) -> ByKind
    ensures { (ms : List HoleMove) → with_rest result ms ≡ kinds_of ms }
{
    ByKind {
        sets: Vec::new(alloc),
        comparisons: Vec::new(alloc),
        stores: Vec::new(alloc),
        endings: Vec::new(alloc),
    }
}

/// Adds a transfer behind those of its kind.
fn add(by_kind: &mut ByKind, t: PTransfer) -> Result<(), OutOfMemory>
    ensures { OnOk result
        ((ms : List HoleMove) → with_rest by_kind.new ms ≡ with_rest by_kind.old (hole_move_of t ∷ ms)) }
{
    match t {
        PTransfer::Set(r, u) => push(&mut by_kind.sets, PTransfer::Set(r, u)),
        PTransfer::Cc(u, v) => push(&mut by_kind.comparisons, PTransfer::Cc(u, v)),
        PTransfer::Store(u, v) => push(&mut by_kind.stores, PTransfer::Store(u, v)),
        t => push(&mut by_kind.endings, t),
    }
}

/// Adds transfers.
fn add_all(by_kind: &mut ByKind, ts: Vec<PTransfer>) -> Result<(), OutOfMemory>
    ensures { OnOk result
        ((ms : List HoleMove) → with_rest by_kind.new ms ≡ with_rest by_kind.old (hole_moves_of ts.items ++ ms)) }
{
    for t in ts {
        add(by_kind, t)?;
    }
    Ok(())
}

/// The transfers, kind after kind.
fn in_one(by_kind: ByKind) -> Result<Vec<PTransfer>, OutOfMemory>
    ensures { IfOk result (λ ts. hole_moves_of ts.items ≡ listing (with_rest by_kind [])) }
{
    let ts = followed(by_kind.sets, by_kind.comparisons)?;
    let ts = followed(ts, by_kind.stores)?;
    followed(ts, by_kind.endings)
}

/// The transfers in the order sets, cc, store, control.
fn in_order(alloc: Global, ts: Vec<PTransfer>) -> Result<Vec<PTransfer>, OutOfMemory>
    ensures { IfOk result (λ all. hole_moves_of all.items ≡ in_order (hole_moves_of ts.items)) }
{
    let mut by_kind = none_yet(alloc);
    add_all(&mut by_kind, ts)?;
    let all = in_one(by_kind)?;
    Ok(all)
}

/// What stays of the simplified first instruction of a shape, a, and of what is wanted of its second: b is that, read
/// after a.
pub fn assemble(
    alloc: Global,
    a: Vec<PTransfer>,
    wanted: &[PTransfer],
    b: Vec<PTransfer>,
    s: &Shape,
) -> Result<Vec<PTransfer>, OutOfMemory>
    ensures { IfOk result (λ all. hole_moves_of all.items ≡
        assembled hole_leaves (is_live_in (shape_of s.now)) s.now.cc
        (hole_moves_of a.items) (hole_moves_of wanted.now) (hole_moves_of b.items)) }
{
    let mut kept = a;
    keep_beside(&mut kept, wanted, s);
    let both = followed(kept, b)?;
    let mut all = in_order(alloc, both)?;
    keep_moving(&mut all);
    Ok(all)
}

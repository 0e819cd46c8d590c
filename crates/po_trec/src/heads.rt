//! Heads, which are compared before anything is written down: how many transfers there are, their kinds, and the
//! outermost operator of what a register is set to. Where they differ, there isn't the structure.
ghost use Rattle.std.specs.Prelude.{◌≡◌, None, false};
ghost use Rattle.po_model.specs.Patterns.{pattern_of, pat_move_of, pat_moves_of};
ghost use Rattle.po_model.specs.Fit.{tree_found, move_found, moves_found};
ghost use Rattle.po_model.specs.Holed.{hole_tree_of, hole_move_of, hole_moves_of};
ghost use Rattle.po_model.specs.Generalised.{hole_leaves};

use crate::addresses::{same_bin, same_un};
use po_model::{PTerm, PTransfer, PatTerm, PatTransfer};

fn is_alike(p: &PatTerm, t: &PTerm) -> bool
    ensures { result ≡ false → tree_found hole_leaves (pattern_of p.now) (hole_tree_of t.now) ≡ None }
{
    match (p, t) {
        (PatTerm::Reg(_), PTerm::Reg(_)) => true,
        (PatTerm::Num(_), PTerm::Const(_)) => true,
        (PatTerm::Const(_, _), PTerm::Const(_)) => true,
        (PatTerm::Addr(_), PTerm::Addr(_)) => true,
        (PatTerm::Mem(_), PTerm::Mem(_)) => true,
        (PatTerm::Un(o, _), PTerm::Un(q, _)) => same_un(*o, *q),
        (PatTerm::Bin(o, _, _), PTerm::Bin(q, _, _)) => same_bin(*o, *q),
        _ => false,
    }
}

#[tactic(auto, using(crate::proofs::Behind::none_behind))]
fn same_kind(p: &PatTransfer, x: &PTransfer) -> bool
    ensures { result ≡ false → move_found hole_leaves (pat_move_of p.now) (hole_move_of x.now) ≡ None }
{
    match (p, x) {
        (PatTransfer::Set(_, p), PTransfer::Set(_, t)) => is_alike(p, t),
        (PatTransfer::Cc(_, _), PTransfer::Cc(_, _)) => true,
        (PatTransfer::Store(_, _), PTransfer::Store(_, _)) => true,
        (PatTransfer::Goto(_), PTransfer::Goto) => true,
        (PatTransfer::If(_, _, _), PTransfer::If(_, _)) => true,
        (PatTransfer::Call(_), PTransfer::Call(_, _)) => true,
        (PatTransfer::Ret, PTransfer::Ret) => true,
        _ => false,
    }
}

/// Whether the heads are the same.
#[tactic(auto, using(crate::proofs::Behind::none_behind))]
pub fn same_heads(ps: &[PatTransfer], xs: &[PTransfer]) -> bool
    ensures { result ≡ false → moves_found hole_leaves (pat_moves_of ps.now) (hole_moves_of xs.now) ≡ None }
{
    match ps {
        [] => xs.is_empty(),
        [p, ps @ ..] => match xs {
            [] => false,
            [x, xs @ ..] => same_kind(p, x) && same_heads(ps, xs),
        },
    }
}

//! What a list of transfers with holes sets, compares and stores. Of two transfers of one kind the first counts.
ghost use Rattle.std.specs.Prelude.{◌≡◌, ◌∷◌, []};
ghost use Rattle.po_model.specs.Parts.{right_at, cc_of, store_of};
ghost use Rattle.po_model.specs.Holed.{InPReg, hole_move_of, hole_moves_of};
ghost use Rattle.po_model.specs.Generalised.{hole_leaves};
ghost use Rattle.po_trec.specs.Read.{tree_found, two_found};

use crate::addresses::is_one;
use po_model::{PReg, PTerm, PTransfer};

/// What a transfer sets a register to.
fn right_in(t: &PTransfer, r: PReg) -> Option<&PTerm>
    ensures { tree_found result ≡ right_at hole_leaves (InPReg r) (hole_move_of t.now ∷ []) }
{
    match t {
        PTransfer::Set(q, u) => { if is_one(r, *q) { Some(u) } else { None } }
        _ => None,
    }
}

/// What an instruction sets a register to.
pub fn right_of(a: &[PTransfer], r: PReg) -> Option<&PTerm>
    ensures { tree_found result ≡ right_at hole_leaves (InPReg r) (hole_moves_of a.now) }
{
    match a {
        [] => None,
        [t, rest @ ..] => match right_in(t, r) {
            Some(u) => Some(u),
            None => right_of(rest, r),
        },
    }
}

/// The two terms that an instruction compares.
pub fn compared(a: &[PTransfer]) -> Option<(&PTerm, &PTerm)>
    ensures { two_found result ≡ cc_of (hole_moves_of a.now) }
{
    match a {
        [] => None,
        [PTransfer::Cc(u, v), ..] => Some((u, v)),
        [_, rest @ ..] => compared(rest),
    }
}

/// The address and the value that an instruction stores.
pub fn stored(a: &[PTransfer]) -> Option<(&PTerm, &PTerm)>
    ensures { two_found result ≡ store_of (hole_moves_of a.now) }
{
    match a {
        [] => None,
        [PTransfer::Store(u, v), ..] => Some((u, v)),
        [_, rest @ ..] => stored(rest),
    }
}

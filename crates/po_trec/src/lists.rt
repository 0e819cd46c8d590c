//! Lists of transfers, made of what becomes of each.
ghost use Rattle.std.specs.Prelude.{◌≡◌, ◌++◌, ◌∷◌, [], IfOk, Some};
ghost use Rattle.po_model.specs.Holed.{hole_move_of, hole_moves_of};
ghost use Rattle.po_trec.specs.Read.{moves_made, list_made};

use po_model::PTransfer;
use po_word::{OutOfMemory, push};
use std::alloc::Global;

/// A list of one transfer.
pub fn one(alloc: Global, t: PTransfer) -> Result<Vec<PTransfer>, OutOfMemory>
    ensures { IfOk result (λ xs. xs.items ≡ t ∷ []) }
{
    let mut xs = Vec::new(alloc);
    push(&mut xs, t)?;
    Ok(xs)
}

/// A transfer that is known, as a list.
pub fn known(alloc: Global, t: PTransfer) -> Result<Option<Vec<PTransfer>>, OutOfMemory>
    ensures { IfOk result (λ xs. list_made xs ≡ Some (hole_move_of t ∷ [])) }
{
    Ok(Some(one(alloc, t)?))
}

/// A transfer, where there is one, as a list.
pub fn none_or_one(alloc: Global, t: Option<PTransfer>) -> Result<Vec<PTransfer>, OutOfMemory>
    ensures { IfOk result (λ xs. hole_moves_of xs.items ≡ moves_made t) }
{
    match t {
        Some(t) => one(alloc, t),
        None => Ok(Vec::new(alloc)),
    }
}

/// The transfers of one list and then those of another.
pub fn followed(
    mut xs: Vec<PTransfer>,
    mut more: Vec<PTransfer>,
) -> Result<Vec<PTransfer>, OutOfMemory>
    ensures { IfOk result (λ all. hole_moves_of all.items ≡ hole_moves_of xs.items ++ hole_moves_of more.items) }
{
    xs.append(&mut more)?;
    Ok(xs)
}

//! Copies of a pair that is posted more than once.
ghost use Rattle.std.specs.Prelude.{◌≡◌, ◌+◌, ◌++◌, ◌∷◌, [], length, map, All, IfOk, OnOk};
ghost use Rattle.po_model.specs.Pairs.{pair_of, WellFormedPair};

use po_crew::copy_pair;
use po_model::Pair;
use po_word::{OutOfMemory, push};
use std::alloc::Global;

/// Puts a pair behind these.
fn push_pair(copies: &mut Vec<Pair>, copy: Pair) -> Result<(), OutOfMemory>
    ensures { OnOk result (copies.new.items ≡ copies.old.items ++ copy ∷ []) }
{
    push(copies, copy)
}

/// A copy behind these.
fn push_copy(alloc: Global, copies: &mut Vec<Pair>, pair: &Pair) -> Result<(), OutOfMemory>
    requires { WellFormedPair (pair_of pair.now) }
    ensures count { OnOk result (length copies.new.items ≡ length copies.old.items + 1) }
    ensures formed { OnOk result (All WellFormedPair (map pair_of copies.old.items)
        → All WellFormedPair (map pair_of copies.new.items)) }
{
    let copy = copy_pair(alloc, pair)?;
    push_pair(copies, copy)?;
    Ok(())
}

/// The pair, and so many others that equal it.
pub fn copies_of(alloc: Global, pair: &Pair, more: u64) -> Result<Vec<Pair>, OutOfMemory>
    requires { WellFormedPair (pair_of pair.now) }
    ensures count { IfOk result (λ ps. length ps.items ≡ 1 + more) }
    ensures formed { IfOk result (λ ps. All WellFormedPair (map pair_of ps.items)) }
{
    let mut copies = Vec::new(alloc);
    push_copy(alloc, &mut copies, pair)?;
    let mut left = more;
    'copies: while left > 0 {
        push_copy(alloc, &mut copies, pair)?;
        left -= 1;
    }
    Ok(copies)
}

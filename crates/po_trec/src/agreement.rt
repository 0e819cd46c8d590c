//! Whether what stands at the places of a pattern agrees: an operand is a digit, and the same thing at each of its
//! places. Whether two constants are the same isn't asked here.
ghost use Rattle.std.specs.Prelude.{◌≡◌, ◌∷◌, []};
ghost use Rattle.std.specs.List.{list_all};
ghost use Rattle.po_model.specs.Fit.{operand_of, same_thing, is_like, agrees, all_agree};
ghost use Rattle.po_model.specs.Generalised.{hole_leaves};
ghost use Rattle.po_trec.specs.Spots.{thing_of, found_of, founds_of, thing_found};

use crate::addresses::is_one;
use crate::found::{Spot, Stands};

/// Whether both are one thing.
fn is_one_thing(a: &Stands, b: &Stands) -> bool
    ensures { result ≡ same_thing hole_leaves (thing_of a.now) (thing_of b.now) }
{
    match (a, b) {
        (Stands::Register(r), Stands::Register(q)) => is_one(*r, *q),
        (Stands::Constant(_), Stands::Constant(_)) => true,
        (Stands::Symbol(j), Stands::Symbol(k)) => *j == *k,
        (Stands::Label, Stands::Label) => true,
        _ => false,
    }
}

fn operand_in<'a>(k: u8, f: &'a Spot) -> Option<&'a Stands>
    ensures { thing_found result ≡ operand_of k (found_of f.now ∷ []) }
{
    match f {
        Spot::Number(_, _) => None,
        Spot::Operand(j, _, x) => { if k == *j { Some(x) } else { None } }
    }
}

/// What the operand k stands for: what stands at its first place.
pub fn operand<'a>(k: u8, found: &'a [Spot]) -> Option<&'a Stands>
    ensures { thing_found result ≡ operand_of k (founds_of found.now) }
{
    match found {
        [] => None,
        [f, rest @ ..] => match operand_in(k, f) {
            Some(x) => Some(x),
            None => operand(k, rest),
        },
    }
}

fn is_as_first(k: u8, x: &Stands, all: &[Spot]) -> bool
    ensures { result ≡ is_like hole_leaves (operand_of k (founds_of all.now)) (thing_of x.now) }
{
    match operand(k, all) {
        None => true,
        Some(y) => is_one_thing(y, x),
    }
}

fn is_agreed(f: &Spot, all: &[Spot]) -> bool
    ensures { result ≡ agrees hole_leaves (founds_of all.now) (found_of f.now) }
{
    match f {
        Spot::Number(_, _) => true,
        Spot::Operand(k, _, x) => *k < 10 && is_as_first(*k, x, all),
    }
}

fn each_agrees(all: &[Spot]) -> bool
    ensures { result ≡ list_all (λ f. agrees hole_leaves (founds_of all.now) (found_of f)) all.now }
{
    all.iter().all(|f| is_agreed(f, all))
}

/// Whether all of it agrees.
pub fn is_all_agreed(all: &[Spot]) -> bool
    ensures { result ≡ all_agree hole_leaves (founds_of all.now) }
{
    each_agrees(all)
}

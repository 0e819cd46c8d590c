//! Whether two addresses meet.
//!
//! An address is seen as a base and an offset: `c` has the offset c and no base, `(u + c)` the base u and the offset
//! c, and any other term is its own base.
ghost use Rattle.std.specs.Prelude.{◌≡◌, if◌then◌else◌};
ghost use Rattle.po_term.specs.Terms.{tree_of, State, IsState};
ghost use Rattle.po_term.specs.Worth.{HasWords};
ghost use Rattle.po_term.specs.Kinds.{words};
ghost use Rattle.po_model.specs.Parts.{code_leaves};
ghost use Rattle.po_model.specs.Forward.{agree, base_of, offset_of, by_offsets, alias_of};
ghost use Rattle.po_model.specs.Meets.{Meets};
ghost use Rattle.po_subst.specs.Seen.{tree_found};

use po_term::{Alias, Term, same_term};
use po_word::Bin;

/// The base of an address.
fn base(t: &Term) -> Option<&Term>
    ensures { tree_found result ≡ base_of (tree_of t.now) }
{
    match t {
        Term::Num(_) => None,
        Term::Bin(Bin::Add, u, c) => match &**c {
            Term::Num(_) => Some(u),
            _ => Some(t),
        },
        _ => Some(t),
    }
}

/// The offset of an address.
fn offset(t: &Term) -> Option<u32>
    ensures { result ≡ offset_of (tree_of t.now) }
{
    match t {
        Term::Num(c) => Some(*c),
        Term::Bin(Bin::Add, _, c) => match &**c {
            Term::Num(c) => Some(*c),
            _ => None,
        },
        _ => None,
    }
}

/// Whether two bases are one term.
fn is_one_base(u: &Term, v: &Term) -> bool
    ensures { result ≡ (agree words code_leaves (tree_of u.now) (tree_of v.now)).got }
{
    same_term(u, v)
}

/// What two addresses of one base are to each other.
fn same_or_apart(same: bool) -> Alias
    ensures { result ≡ (if same then Alias.Same else Alias.Apart) }
{
    if same { Alias::Same } else { Alias::Apart }
}

/// Whether two addresses of one base meet, by their offsets.
fn compare_offsets(c: Option<u32>, d: Option<u32>) -> Alias
    ensures { result ≡ (by_offsets words code_leaves c d).got }
{
    match (c, d) {
        (Some(c), Some(d)) => same_or_apart(c == d),
        (Some(c), None) => same_or_apart(c == 0),
        (None, Some(d)) => same_or_apart(d == 0),
        (None, None) => Alias::Same,
    }
}

/// Whether two addresses meet, by their bases and then by their offsets.
fn compare(p: &Term, q: &Term) -> Alias
    ensures { result ≡ (alias_of words code_leaves (tree_of p.now) (tree_of q.now)).got }
{
    match (base(p), base(q)) {
        (Some(u), Some(v)) => {
            if is_one_base(u, v) {
                compare_offsets(offset(p), offset(q))
            } else {
                Alias::Maybe
            }
        }
        (None, None) => compare_offsets(offset(p), offset(q)),
        _ => Alias::Maybe,
    }
}

/// Whether two addresses meet (docs/OPTIMISER.md, "Aliasing").
///
/// Addresses that are `Same` have one value in every state, and addresses that are `Apart` have two.
pub fn alias(p: &Term, q: &Term) -> Alias
    ensures made { result ≡ (alias_of words code_leaves (tree_of p.now) (tree_of q.now)).got }
    ensures means { (s : State) → IsState s → HasWords (tree_of p.now) → HasWords (tree_of q.now)
        → Meets result s (tree_of p.now) (tree_of q.now) }
{
    compare(p, q)
}

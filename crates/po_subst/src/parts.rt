//! The parts of an instruction: what it sets, compares and stores. Of two transfers of one kind the first counts.
ghost use Rattle.std.specs.Prelude.{◌≡◌, ◌∷◌, []};
ghost use Rattle.po_term.specs.Terms.{tree_of, InReg};
ghost use Rattle.po_term.specs.Moves.{move_of, instr_of};
ghost use Rattle.po_term.specs.Simplified.{reg_eq};
ghost use Rattle.po_model.specs.Parts.{code_leaves, right_at, cc_of, store_of};
ghost use Rattle.po_subst.specs.Seen.{tree_found, two_found};

use po_term::{Instr, Reg, Term, Transfer};

/// Whether both are one register.
pub fn is_one(r: Reg, q: Reg) -> bool
    ensures { result ≡ reg_eq r q }
{
    r == q
}

/// What a transfer sets a register to.
fn right_in(t: &Transfer, r: Reg) -> Option<&Term>
    ensures { tree_found result ≡ right_at code_leaves (InReg r) (move_of t.now ∷ []) }
{
    match t {
        Transfer::Set(q, u) => { if is_one(r, *q) { Some(u) } else { None } }
        _ => None,
    }
}

/// What an instruction sets a register to.
pub fn right_of(a: &Instr, r: Reg) -> Option<&Term>
    ensures { tree_found result ≡ right_at code_leaves (InReg r) (instr_of a.now) }
{
    for t in &a.xs {
        if let Some(u) = right_in(t, r) {
            return Some(u);
        }
    }
    None
}

/// The two terms that an instruction compares.
pub fn compared(a: &Instr) -> Option<(&Term, &Term)>
    ensures { two_found result ≡ cc_of (instr_of a.now) }
{
    for t in &a.xs {
        if let Transfer::Cc(u, v) = t {
            return Some((u, v));
        }
    }
    None
}

/// The address and the value that an instruction stores.
pub fn stored(a: &Instr) -> Option<(&Term, &Term)>
    ensures { two_found result ≡ store_of (instr_of a.now) }
{
    for t in &a.xs {
        if let Transfer::Store(u, v) = t {
            return Some((u, v));
        }
    }
    None
}

//! Equality of terms.
ghost use Rattle.std.specs.Prelude.{◌≡◌, ◌↔◌, IsTrue};
ghost use Rattle.po_term.specs.Terms.{tree_of};

use crate::Term;

/// Whether two terms are one tree: the same operators, constants, registers and symbols in the same places.
/// It recurses as deep as the shallower one is.
pub fn same_term(a: &Term, b: &Term) -> bool
    ensures { IsTrue result ↔ (tree_of a.now ≡ tree_of b.now) }
{
    match (a, b) {
        (Term::Num(x), Term::Num(y)) => *x == *y,
        (Term::Reg(x), Term::Reg(y)) => *x == *y,
        (Term::Addr(x), Term::Addr(y)) => *x == *y,
        (Term::Mem(x), Term::Mem(y)) => same_term(x, y),
        (Term::Un(o, x), Term::Un(p, y)) => *o == *p && same_term(x, y),
        (Term::Bin(o, x, z), Term::Bin(p, y, w)) => *o == *p && same_term(x, y) && same_term(z, w),
        _ => false,
    }
}

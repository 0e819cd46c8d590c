//! How large a term is.
ghost use Rattle.std.specs.Prelude.{◌≡◌, ◌<◌, ◌^◌};
ghost use Rattle.po_term.specs.Tree.{tree_size, tree_depth};
ghost use Rattle.po_term.specs.Terms.{tree_of};

use crate::Term;

/// How many nodes a term has: one for each constant, register, address and operator (docs/LANGUAGE.md, "Terms").
/// The term has fewer than 2^64 of them. It recurses as deep as the term is.
pub fn size(t: &Term) -> u64
    requires { tree_size (tree_of t.now) < 2 ^ 64 }
    ensures { result ≡ tree_size (tree_of t.now) }
{
    match t {
        Term::Num(_) => 1,
        Term::Reg(_) => 1,
        Term::Addr(_) => 1,
        Term::Mem(x) => 1 + size(x),
        Term::Un(_, x) => 1 + size(x),
        Term::Bin(_, x, y) => 1 + size(x) + size(y),
    }
}

/// How deep a term is: 1 without operands, else one more than its deepest operand (docs/LANGUAGE.md, "Terms").
/// The term's depth is below 2^64. It recurses as deep as the term is.
pub fn depth(t: &Term) -> u64
    requires { tree_depth (tree_of t.now) < 2 ^ 64 }
    ensures { result ≡ tree_depth (tree_of t.now) }
{
    match t {
        Term::Num(_) => 1,
        Term::Reg(_) => 1,
        Term::Addr(_) => 1,
        Term::Mem(x) => 1 + depth(x),
        Term::Un(_, x) => 1 + depth(x),
        Term::Bin(_, x, y) => 1 + depth(x).max(depth(y)),
    }
}

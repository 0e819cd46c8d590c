//! Whether two addresses with holes meet.
ghost use Rattle.std.specs.Prelude.{◌≡◌, IfOk, OnOk, if◌then◌else◌};
ghost use Rattle.po_word.specs.Exprs.{Same as Equals};
ghost use Rattle.po_word.specs.Views.{expr_of};
ghost use Rattle.po_term.specs.Kinds.{exprs};
ghost use Rattle.po_model.specs.Operators.{un_eq, bin_eq};
ghost use Rattle.po_model.specs.Forward.{agree, base_of, offset_of, by_offsets, by_bases, alias_of};
ghost use Rattle.po_model.specs.Holed.{hole_tree_of};
ghost use Rattle.po_model.specs.Generalised.{hole_register_eq, hole_leaves};
ghost use Rattle.po_tsimp.specs.Made.{path_of, note};
ghost use Rattle.po_trec.specs.Read.{tree_found, expr_found, Answers};

use po_model::{PReg, PTerm, Values};
use po_term::Alias;
use po_tsimp::{Path, ask, is_zero};
use po_word::{Bin, CExpr, OutOfMemory, Question, Un, copy_cexpr};
use std::alloc::Global;

pub fn same_un(a: Un, b: Un) -> bool
    ensures { result ≡ un_eq a b }
{
    a as u8 == b as u8
}

pub fn same_bin(a: Bin, b: Bin) -> bool
    ensures { result ≡ bin_eq a b }
{
    a as u8 == b as u8
}

/// Whether two registers are one.
pub fn is_one(r: PReg, q: PReg) -> bool
    ensures { result ≡ hole_register_eq r q }
{
    r == q
}

/// Whether two expressions are the same word.
pub fn is_equal(
    alloc: Global,
    c: &CExpr,
    d: &CExpr,
    holes: &[u32],
    path: &mut Path,
) -> Result<bool, OutOfMemory>
    ensures said { IfOk result (λ b. b ≡ (exprs holes.now).says (Equals (expr_of c.now) (expr_of d.now))) }
    ensures noted { OnOk result
        (path_of path.new ≡ note holes.now (path_of path.old) (Equals (expr_of c.now) (expr_of d.now))) }
{
    let first = copy_cexpr(alloc, c)?;
    let second = copy_cexpr(alloc, d)?;
    ask(Question::Equal(first, second), holes, path)
}

/// Whether two bases are one term, from left to right, each operator before its operands.
#[tactic(auto, using(po_tsimp::proofs::Paths::extended_append, po_tsimp::proofs::Paths::extended_nothing))]
fn is_one_base(
    alloc: Global,
    a: &PTerm,
    b: &PTerm,
    holes: &[u32],
    path: &mut Path,
) -> Result<bool, OutOfMemory>
    ensures { Answers (λ b. b) holes.now result path.old path.new
        (agree (exprs holes.now) hole_leaves (hole_tree_of a.now) (hole_tree_of b.now)) }
{
    match (a, b) {
        (PTerm::Const(c), PTerm::Const(d)) => is_equal(alloc, c, d, holes, path),
        (PTerm::Reg(r), PTerm::Reg(q)) => Ok(is_one(*r, *q)),
        (PTerm::Addr(j), PTerm::Addr(k)) => Ok(*j == *k),
        (PTerm::Mem(x), PTerm::Mem(y)) => is_one_base(alloc, x, y, holes, path),
        (PTerm::Un(o, x), PTerm::Un(p, y)) => {
            if same_un(*o, *p) {
                is_one_base(alloc, x, y, holes, path)
            } else {
                Ok(false)
            }
        }
        (PTerm::Bin(o, x, u), PTerm::Bin(p, y, v)) => {
            if same_bin(*o, *p) {
                if is_one_base(alloc, x, y, holes, path)? {
                    is_one_base(alloc, u, v, holes, path)
                } else {
                    Ok(false)
                }
            } else {
                Ok(false)
            }
        }
        _ => Ok(false),
    }
}

/// The base of an address.
fn base(t: &PTerm) -> Option<&PTerm>
    ensures { tree_found result ≡ base_of (hole_tree_of t.now) }
{
    match t {
        PTerm::Const(_) => None,
        PTerm::Bin(Bin::Add, u, c) => match &**c {
            PTerm::Const(_) => Some(u),
            _ => Some(t),
        },
        _ => Some(t),
    }
}

/// The offset of an address.
fn offset(t: &PTerm) -> Option<&CExpr>
    ensures { expr_found result ≡ offset_of (hole_tree_of t.now) }
{
    match t {
        PTerm::Const(c) => Some(c),
        PTerm::Bin(Bin::Add, _, c) => match &**c {
            PTerm::Const(c) => Some(c),
            _ => None,
        },
        _ => None,
    }
}

/// What two addresses of one base are to each other.
fn same_or_apart(same: bool) -> Alias
    ensures { result ≡ (if same then Alias.Same else Alias.Apart) }
{
    if same { Alias::Same } else { Alias::Apart }
}

/// Whether two addresses of one base meet, by their offsets.
fn compare_offsets(
    alloc: Global,
    c: Option<&CExpr>,
    d: Option<&CExpr>,
    holes: &[u32],
    path: &mut Path,
) -> Result<Alias, OutOfMemory>
    ensures { Answers (λ a. a) holes.now result path.old path.new
        (by_offsets (exprs holes.now) hole_leaves (expr_found c.entry) (expr_found d.entry)) }
{
    match (c, d) {
        (Some(c), Some(d)) => Ok(same_or_apart(is_equal(alloc, c, d, holes, path)?)),
        (Some(c), None) => Ok(same_or_apart(is_zero(alloc, c, holes, path)?)),
        (None, Some(d)) => Ok(same_or_apart(is_zero(alloc, d, holes, path)?)),
        (None, None) => Ok(Alias::Same),
    }
}

/// Whether two addresses meet, by their bases and then by their offsets.
#[tactic(auto, using(po_tsimp::proofs::Paths::extended_append, po_tsimp::proofs::Paths::extended_nothing))]
pub fn compare(
    alloc: Global,
    p: &PTerm,
    q: &PTerm,
    holes: &[u32],
    path: &mut Path,
) -> Result<Alias, OutOfMemory>
    ensures { Answers (λ a. a) holes.now result path.old path.new
        (alias_of (exprs holes.now) hole_leaves (hole_tree_of p.now) (hole_tree_of q.now)) }
{
    match (base(p), base(q)) {
        (Some(u), Some(v)) => {
            if is_one_base(alloc, u, v, holes, path)? {
                compare_offsets(alloc, offset(p), offset(q), holes, path)
            } else {
                Ok(Alias::Maybe)
            }
        }
        (None, None) => compare_offsets(alloc, offset(p), offset(q), holes, path),
        _ => Ok(Alias::Maybe),
    }
}

/// Whether two addresses meet (docs/RULES.md).
pub fn alias_p(
    alloc: Global,
    p: &PTerm,
    q: &PTerm,
    v: &Values,
    path: &mut Path,
) -> Result<Alias, OutOfMemory>
    ensures { Answers (λ a. a) v.now.consts.items result path.old path.new
        (alias_of (exprs v.now.consts.items) hole_leaves (hole_tree_of p.now) (hole_tree_of q.now)) }
{
    compare(alloc, p, q, &v.consts, path)
}

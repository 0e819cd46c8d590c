//! Which instructions are well formed. A term is first looked at down to its limit of depth and no deeper, so that no
//! term makes the test run out of stack; only then are its nodes counted.
ghost use Rattle.std.specs.Prelude.{◌≡◌, ◌≢◌, ◌↔◌, ◌<◌, ◌≤◌, ◌^◌, IsTrue, All, AllPairs, length};
ghost use Rattle.po_term.specs.Tree.{tree_depth, EachConst, EachLeaf};
ghost use Rattle.po_term.specs.Terms.{tree_of};
ghost use Rattle.po_term.specs.Moves.{move_of, instr_of};
ghost use Rattle.po_term.specs.Form.{IsRegister, IsPlace, WellFormedTerm, WellFormedMove, kind_of, Sets, GoesBefore};
ghost use Rattle.po_term.specs.Form.{WellFormed};

use crate::{Cond, Instr, Reg, Term, Transfer, size};

/// How many transfers an instruction may have.
const MAX_TRANSFERS: usize = 4;
/// How many nodes a term may have.
const MAX_NODES: u64 = 64;
/// How deep a term may be.
const MAX_DEPTH: u32 = 16;

/// Whether an instruction is well formed (docs/LANGUAGE.md, "Transfers"). It takes no memory.
pub fn well_formed(i: &Instr) -> bool
    ensures { IsTrue result ↔ WellFormed (instr_of i.now) }
{
    is_well_formed_list(i.xs.as_slice())
}

fn is_well_formed_list(xs: &[Transfer]) -> bool
    ensures { IsTrue result ↔
        ((1 ≤ length xs.now) × (length xs.now ≤ 4) × AllPairs (λ x y. GoesBefore (move_of x) (move_of y)) xs.now
        × All (λ t. WellFormedMove (move_of t)) xs.now) }
{
    if xs.is_empty() || xs.len() > MAX_TRANSFERS {
        return false;
    }
    pairs_agree(xs) && all_well_formed(xs)
}

fn all_well_formed(xs: &[Transfer]) -> bool
    ensures { IsTrue result ↔ All (λ t. WellFormedMove (move_of t)) xs.now }
{
    xs.iter().all(|t| is_well_formed(t))
}

/// Whether each transfer may stand before each later one.
fn pairs_agree(xs: &[Transfer]) -> bool
    ensures { IsTrue result ↔ AllPairs (λ x y. GoesBefore (move_of x) (move_of y)) xs.now }
{
    match xs {
        [] => true,
        [x, rest @ ..] => before_all(x, rest) && pairs_agree(rest),
    }
}

fn before_all(x: &Transfer, rest: &[Transfer]) -> bool
    ensures { IsTrue result ↔ All (λ y. GoesBefore (move_of x.now) (move_of y)) rest.now }
{
    rest.iter().all(|y| goes_before(x, y))
}

fn goes_before(x: &Transfer, y: &Transfer) -> bool
    ensures { IsTrue result ↔ GoesBefore (move_of x.now) (move_of y.now) }
{
    match x {
        Transfer::Set(r, _) => !sets(y, *r),
        _ => kind(x) < kind(y),
    }
}

fn sets(t: &Transfer, r: Reg) -> bool
    ensures { IsTrue result ↔ Sets r (move_of t.now) }
{
    match t {
        Transfer::Set(q, _) => *q == r,
        _ => false,
    }
}

/// The place of a transfer in the order sets, cc, store, control.
fn kind(t: &Transfer) -> u8
    ensures { result ≡ kind_of (move_of t.now) }
{
    match t {
        Transfer::Set(_, _) => 0,
        Transfer::Cc(_, _) => 1,
        Transfer::Store(_, _) => 2,
        Transfer::Goto(_) => 3,
        Transfer::If(_, _, _) => 3,
        Transfer::Call(_, _) => 3,
        Transfer::Ret => 3,
    }
}

/// Whether a transfer is well formed by itself.
fn is_well_formed(t: &Transfer) -> bool
    ensures { IsTrue result ↔ WellFormedMove (move_of t.now) }
{
    match t {
        Transfer::Set(r, x) => may_be_set(*r) && is_well_formed_term(x),
        Transfer::Cc(x, y) => is_well_formed_term(x) && is_well_formed_term(y),
        Transfer::Store(x, y) => is_well_formed_term(x) && is_well_formed_term(y),
        Transfer::Goto(l) => is_word(l.0),
        Transfer::If(Cond::Cc, _, l) => is_word(l.0),
        Transfer::If(Cond::Two(x, y), _, l) => is_well_formed_term(x)
            && is_well_formed_term(y)
            && is_word(l.0),
        Transfer::Call(s, n) => is_word(s.0) && *n <= 4,
        Transfer::Ret => true,
    }
}

fn may_be_set(r: Reg) -> bool
    ensures { IsTrue result ↔ (IsRegister r × (r ≢ Reg.Fp)) }
{
    is_register(r) && r != Reg::Fp
}

fn is_register(r: Reg) -> bool
    ensures { IsTrue result ↔ IsRegister r }
{
    match r {
        Reg::Virt(_) => true,
        Reg::Fp => true,
        Reg::Rv => true,
        Reg::Arg(n) => n <= 3,
    }
}

#[tactic(auto, using(crate::proofs::FormLemmas::size_of_shallow))]
fn is_well_formed_term(t: &Term) -> bool
    ensures { IsTrue result ↔ WellFormedTerm (tree_of t.now) }
{
    fits_depth(t, MAX_DEPTH) && size(t) <= MAX_NODES && has_ranges(t)
}

/// Whether a term is at most `limit` deep. It looks no deeper.
#[tactic(auto, using(crate::proofs::FormLemmas::depth_positive))]
fn fits_depth(t: &Term, limit: u32) -> bool
    ensures { IsTrue result ↔ (tree_depth (tree_of t.now) ≤ limit) }
{
    if limit == 0 {
        return false;
    }
    match t {
        Term::Num(_) => true,
        Term::Reg(_) => true,
        Term::Addr(_) => true,
        Term::Mem(x) => fits_depth(x, limit - 1),
        Term::Un(_, x) => fits_depth(x, limit - 1),
        Term::Bin(_, x, y) => fits_depth(x, limit - 1) && fits_depth(y, limit - 1),
    }
}

/// Whether each number of a term is in its range.
fn has_ranges(t: &Term) -> bool
    ensures { IsTrue result ↔ (EachConst (λ c. c < 2 ^ 32) (tree_of t.now) × EachLeaf IsPlace (tree_of t.now)) }
{
    match t {
        Term::Num(c) => is_word(*c),
        Term::Reg(r) => is_register(*r),
        Term::Addr(s) => is_word(s.0),
        Term::Mem(x) => has_ranges(x),
        Term::Un(_, x) => has_ranges(x),
        Term::Bin(_, x, y) => has_ranges(x) && has_ranges(y),
    }
}

/// Whether a number is below 2^32: by its type each is.
fn is_word(number: u32) -> bool
    ensures { IsTrue result ↔ (number < 2 ^ 32) }
{
    number <= u32::MAX
}

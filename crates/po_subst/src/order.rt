//! Transfers put into the order sets, cc, store, control.
//!
//! `ByKind` holds the transfers of each kind in the order in which they came, without those that set a register to
//! itself.
ghost use Rattle.std.specs.Prelude.{◌≡◌, ◌++◌, ◌∷◌, [], ℕ, List, OnOk, IfOk, true, false, filter};
ghost use Rattle.std.specs.List.{list_any};
ghost use Rattle.po_term.specs.Moves.{move_of, moves_of, instr_of, PlainMove};
ghost use Rattle.po_model.specs.Parts.{code_leaves};
ghost use Rattle.po_model.specs.Joined.{is_control, is_wanted, is_kept, is_idle, in_order, assembled};
ghost use Rattle.po_subst.specs.Order.{Kinds, kinds_of, with_rest, listing, is_moving, kept_beside};
ghost use Rattle.po_subst.specs.Seen.{is_among};

use crate::choosing::{is_idle, is_kept};
use po_term::{Instr, Reg, Transfer, copy_term};
use po_word::{OutOfMemory, push};
use std::alloc::Global;

#[derive(Drop)]
pub struct ByKind {
    pub sets: Vec<Transfer>,
    pub comparisons: Vec<Transfer>,
    pub stores: Vec<Transfer>,
    pub endings: Vec<Transfer>,
}

/// Without a transfer.
pub fn none_yet(alloc: Global) -> ByKind
    ensures { (ms : List PlainMove) → with_rest result ms ≡ kinds_of ms }
{
    ByKind {
        sets: Vec::new(alloc),
        comparisons: Vec::new(alloc),
        stores: Vec::new(alloc),
        endings: Vec::new(alloc),
    }
}

/// Adds a transfer behind those of its kind.
fn add_moving(by_kind: &mut ByKind, t: Transfer) -> Result<(), OutOfMemory>
    requires { is_idle code_leaves (move_of t) ≡ false }
    ensures { OnOk result ((ms : List PlainMove) → with_rest by_kind.new ms ≡ with_rest by_kind.old (move_of t ∷ ms)) }
{
    match t {
        Transfer::Set(r, u) => push(&mut by_kind.sets, Transfer::Set(r, u)),
        Transfer::Cc(u, v) => push(&mut by_kind.comparisons, Transfer::Cc(u, v)),
        Transfer::Store(u, v) => push(&mut by_kind.stores, Transfer::Store(u, v)),
        t => push(&mut by_kind.endings, t),
    }
}

/// Adds a transfer, unless it sets a register to itself.
fn add(by_kind: &mut ByKind, t: Transfer) -> Result<(), OutOfMemory>
    ensures { OnOk result ((ms : List PlainMove) → with_rest by_kind.new ms ≡ with_rest by_kind.old (move_of t ∷ ms)) }
{
    if is_idle(&t) {
        Ok(())
    } else {
        add_moving(by_kind, t)
    }
}

/// Adds a copy of a transfer that isn't one of control.
fn add_copy(alloc: Global, by_kind: &mut ByKind, t: &Transfer) -> Result<(), OutOfMemory>
    requires { is_control (move_of t.now) ≡ false }
    ensures { OnOk result ((ms : List PlainMove) → with_rest by_kind.new ms
        ≡ with_rest by_kind.old (move_of t.now ∷ ms)) }
{
    match t {
        Transfer::Set(r, u) => add(by_kind, Transfer::Set(*r, copy_term(alloc, u)?)),
        Transfer::Cc(u, v) => {
            let u = copy_term(alloc, u)?;
            add(by_kind, Transfer::Cc(u, copy_term(alloc, v)?))
        }
        Transfer::Store(u, v) => {
            let u = copy_term(alloc, u)?;
            add(by_kind, Transfer::Store(u, copy_term(alloc, v)?))
        }
        _ => Ok(()),
    }
}

/// Adds a copy of a transfer of the first instruction, where it stays beside the second.
fn add_where_kept(
    alloc: Global,
    by_kind: &mut ByKind,
    t: &Transfer,
    b: &Instr,
    live: &[Reg],
    cc_live: bool,
) -> Result<(), OutOfMemory>
    ensures { OnOk result ((ms : List PlainMove) → with_rest by_kind.new ms
        ≡ with_rest by_kind.old
        (kept_beside (is_among live.now) cc_live (instr_of b.now) (move_of t.now ∷ []) ++ ms)) }
{
    if is_kept(t, b, live, cc_live) {
        add_copy(alloc, by_kind, t)
    } else {
        Ok(())
    }
}

/// Adds copies of what of the first instruction stays beside the second.
fn add_kept(
    alloc: Global,
    by_kind: &mut ByKind,
    a: &Instr,
    b: &Instr,
    live: &[Reg],
    cc_live: bool,
) -> Result<(), OutOfMemory>
    ensures { OnOk result ((ms : List PlainMove) → with_rest by_kind.new ms
        ≡ with_rest by_kind.old (kept_beside (is_among live.now) cc_live (instr_of b.now) (instr_of a.now) ++ ms)) }
{
    for t in &a.xs {
        add_where_kept(alloc, by_kind, t, b, live, cc_live)?;
    }
    Ok(())
}

/// Adds the transfers of an instruction.
fn add_all(by_kind: &mut ByKind, b: Instr) -> Result<(), OutOfMemory>
    ensures { OnOk result ((ms : List PlainMove) → with_rest by_kind.new ms
        ≡ with_rest by_kind.old (instr_of b ++ ms)) }
{
    for t in b.xs {
        add(by_kind, t)?;
    }
    Ok(())
}

/// Moves the transfers of a list behind those of another.
fn append(xs: &mut Vec<Transfer>, mut more: Vec<Transfer>) -> Result<(), OutOfMemory>
    ensures { OnOk result (moves_of xs.new.items ≡ moves_of xs.old.items ++ moves_of more.items) }
{
    match xs.append(&mut more) {
        Ok(()) => Ok(()),
        Err(_) => Err(OutOfMemory),
    }
}

/// The transfers as one instruction.
fn in_one(by_kind: ByKind) -> Result<Instr, OutOfMemory>
    ensures { IfOk result (λ i. instr_of i ≡ listing (with_rest by_kind [])) }
{
    let mut xs = by_kind.sets;
    append(&mut xs, by_kind.comparisons)?;
    append(&mut xs, by_kind.stores)?;
    append(&mut xs, by_kind.endings)?;
    Ok(Instr { xs })
}

/// What stays of the simplified instruction a, and the transfers b, each kind with its own.
fn sorted(
    alloc: Global,
    a: &Instr,
    b: Instr,
    second: &Instr,
    live: &[Reg],
    cc_live: bool,
) -> Result<Instr, OutOfMemory>
    ensures { IfOk result (λ i. instr_of i ≡ assembled code_leaves (is_among live.now) cc_live (instr_of a.now)
        (filter (is_wanted (is_among live.now) cc_live) (instr_of second.now)) (instr_of b)) }
{
    let mut by_kind = none_yet(alloc);
    add_kept(alloc, &mut by_kind, a, second, live, cc_live)?;
    add_all(&mut by_kind, b)?;
    let i = in_one(by_kind)?;
    Ok(i)
}

fn any_kept(xs: &[Transfer], second: &Instr, live: &[Reg], cc_live: bool) -> bool
    ensures { result ≡ list_any (λ t. is_kept code_leaves (is_among live.now) cc_live
        (filter (is_wanted (is_among live.now) cc_live) (instr_of second.now)) (move_of t)) xs.now }
{
    xs.iter().any(|t| is_kept(t, second, live, cc_live))
}

/// Whether some transfer of the first instruction stays beside the second.
#[tactic(auto, using(crate::proofs::Choices::any_move))]
fn keeps_some(a: &Instr, second: &Instr, live: &[Reg], cc_live: bool) -> bool
    ensures { result ≡ list_any (is_kept code_leaves (is_among live.now) cc_live
        (filter (is_wanted (is_among live.now) cc_live) (instr_of second.now))) (instr_of a.now) }
{
    any_kept(&a.xs, second, live, cc_live)
}

/// Whether the transfers are at most one, which isn't a set of a register to itself.
#[tactic(auto, using(crate::proofs::InOrder::one_moving))]
fn are_one_moving(xs: &[Transfer]) -> bool
    ensures { result ≡ true → filter is_moving (in_order (moves_of xs.now)) ≡ moves_of xs.now }
{
    match xs {
        [] => true,
        [t] => !is_idle(t),
        _ => false,
    }
}

fn is_one_moving(b: &Instr) -> bool
    ensures { result ≡ true → filter is_moving (in_order (instr_of b.now)) ≡ instr_of b.now }
{
    are_one_moving(&b.xs)
}

/// What stays of the simplified instruction a, beside the transfers b, which are those of the second instruction that
/// are wanted, read after a. Mostly nothing stays, and b is one transfer: it is the list then, as it is.
pub fn assemble(
    alloc: Global,
    a: &Instr,
    b: Instr,
    second: &Instr,
    live: &[Reg],
    cc_live: bool,
) -> Result<Instr, OutOfMemory>
    ensures { IfOk result (λ i. instr_of i ≡ assembled code_leaves (is_among live.now) cc_live (instr_of a.now)
        (filter (is_wanted (is_among live.now) cc_live) (instr_of second.now)) (instr_of b)) }
{
    if is_one_moving(&b) && !keeps_some(a, second, live, cc_live) {
        return Ok(b);
    }
    let i = sorted(alloc, a, b, second, live, cc_live)?;
    Ok(i)
}

//! Two instructions made one list of transfers.
ghost use Rattle.std.specs.Prelude.{◌≡◌, ◌||◌, IfOk, Some, filter};
ghost use Rattle.std.specs.List.{list_any};
ghost use Rattle.po_term.specs.Moves.{instr_of};
ghost use Rattle.po_term.specs.Kinds.{words};
ghost use Rattle.po_term.specs.Simplified.{same_register, simple_moves};
ghost use Rattle.po_model.specs.LiveSet.{is_live};
ghost use Rattle.po_model.specs.Parts.{code_leaves, store_of};
ghost use Rattle.po_model.specs.Joined.{is_control, is_away, is_wanted, covers, with_forwarded, join_simple, listed};
ghost use Rattle.po_model.specs.Joined.{joined};
ghost use Rattle.po_subst.specs.JoinedMoves.{joint_of, at_most};
ghost use Rattle.po_subst.specs.Seen.{is_among};

use crate::addresses::alias;
use crate::choosing::{goes_away, has_control, live_registers};
use crate::least::is_longer;
use crate::order::assemble;
use crate::parts::stored;
use crate::simple::is_simple;
use crate::transfers::forward_wanted;
use po_model::Pair;
use po_simplify::simplify_instr;
use po_term::{Alias, Instr, Reg, copy_instr};
use po_word::OutOfMemory;
use std::alloc::Global;

/// What two instructions come to.
#[derive(Drop)]
pub enum Joined {
    /// They stay two.
    Not,
    /// Nothing is left of them.
    Empty,
    /// A list of transfers, which may be one that no machine has.
    List(Instr),
}

/// Whether the store of b, where both store, leaves nothing of that of a: whether their addresses are the same.
fn covers(a: &Instr, b: &Instr) -> bool
    ensures { result ≡ (covers words code_leaves (store_of (instr_of a.now)) (store_of (instr_of b.now))).got }
{
    match stored(a) {
        Some((p, _)) => match stored(b) {
            Some((q, _)) => matches!(alias(p, q), Alias::Same),
            None => true,
        },
        None => true,
    }
}

/// A list of transfers, or nothing.
fn list(i: Instr) -> Joined
    ensures { joint_of result ≡ listed (instr_of i) }
{
    if i.xs.is_empty() {
        Joined::Empty
    } else {
        Joined::List(i)
    }
}

/// The same, where a list of more than so many transfers is none.
fn cut(most: usize, j: Joined) -> Joined
    ensures { joint_of result ≡ at_most most (joint_of j) }
{
    match j {
        Joined::Not => Joined::Not,
        Joined::Empty => Joined::Empty,
        Joined::List(i) => {
            if i.xs.len() > most {
                Joined::Not
            } else {
                Joined::List(i)
            }
        }
    }
}

/// What the simplified instruction a comes to with the transfers b, which are those of the second instruction that are
/// wanted, read after a.
fn join_forwarded(
    alloc: Global,
    a: &Instr,
    b: Instr,
    second: &Instr,
    live: &[Reg],
    cc_live: bool,
) -> Result<Joined, OutOfMemory>
    ensures { IfOk result (λ j. joint_of j
        ≡ (with_forwarded words code_leaves (is_among live.now) cc_live (instr_of a.now)
        (filter (is_wanted (is_among live.now) cc_live) (instr_of second.now)) (Some (instr_of b))).got) }
{
    if covers(a, &b) {
        let joined = assemble(alloc, a, b, second, live, cc_live)?;
        Ok(list(joined))
    } else {
        Ok(Joined::Not)
    }
}

/// What the simplified instruction a comes to with the second.
fn join_simple(
    alloc: Global,
    a: &Instr,
    second: &Instr,
    live: &[Reg],
    cc_live: bool,
) -> Result<Joined, OutOfMemory>
    ensures { IfOk result (λ j. joint_of j
        ≡ (join_simple words code_leaves (is_among live.now) cc_live (instr_of a.now)
        (filter (is_wanted (is_among live.now) cc_live) (instr_of second.now))).got) }
{
    match forward_wanted(alloc, a, second, live, cc_live)? {
        Some(b) => join_forwarded(alloc, a, b, second, live, cc_live),
        None => Ok(Joined::Not),
    }
}

/// What two instructions come to, of which the first has no transfer of control and the second neither calls nor
/// returns. The first is copied only where it isn't simplified.
fn join(
    alloc: Global,
    a: &Instr,
    b: &Instr,
    live: &[Reg],
    cc_live: bool,
) -> Result<Joined, OutOfMemory>
    ensures { IfOk result (λ j. joint_of j
        ≡ (join_simple words code_leaves (is_among live.now) cc_live
        (simple_moves words same_register (instr_of a.now)).got
        (filter (is_wanted (is_among live.now) cc_live) (instr_of b.now))).got) }
{
    if is_simple(a) {
        let joined = join_simple(alloc, a, b, live, cc_live)?;
        return Ok(joined);
    }
    let a = copy_instr(alloc, a)?;
    let a = simplify_instr(alloc, a)?;
    let joined = join_simple(alloc, &a, b, live, cc_live)?;
    Ok(joined)
}

/// Whether two instructions stay two by their transfers of control alone.
fn stay_two(a: &Instr, b: &Instr) -> bool
    ensures { result ≡ (list_any is_control (instr_of a.now) || list_any is_away (instr_of b.now)) }
{
    has_control(a) || goes_away(b)
}

/// What two instructions come to with these registers live after them, and `cc` or not.
fn come_to(
    alloc: Global,
    a: &Instr,
    b: &Instr,
    live: &[Reg],
    cc_live: bool,
) -> Result<Joined, OutOfMemory>
    ensures { IfOk result (λ j. joint_of j
        ≡ (joined words code_leaves (is_among live.now) cc_live (instr_of a.now) (instr_of b.now)).got) }
{
    if stay_two(a, b) {
        return Ok(Joined::Not);
    }
    let joined = join(alloc, a, b, live, cc_live)?;
    Ok(joined)
}

/// What the two instructions of a pair come to, before a machine is asked (docs/OPTIMISER.md, "Combination"). It fails
/// only where memory is refused.
pub fn together(alloc: Global, p: &Pair) -> Result<Joined, OutOfMemory>
    ensures { IfOk result (λ j. joint_of j
        ≡ (joined words code_leaves (is_live p.now.live) p.now.live.cc (instr_of p.now.a) (instr_of p.now.b)).got) }
{
    let live = live_registers(alloc, &p.live)?;
    let joined = come_to(alloc, &p.a, &p.b, &live, p.live.cc)?;
    Ok(joined)
}

/// What two instructions come to with these registers live after them, and `cc` or not, where a list of more than
/// `most` transfers is none: they stay two then (docs/OPTIMISER.md, "Combination"). A list that surely has more isn't
/// made. It fails only where memory is refused.
pub fn together_within(
    alloc: Global,
    most: usize,
    a: &Instr,
    b: &Instr,
    live: &[Reg],
    cc_live: bool,
) -> Result<Joined, OutOfMemory>
    ensures { IfOk result (λ j. joint_of j ≡ at_most most
        (joined words code_leaves (is_among live.now) cc_live (instr_of a.now) (instr_of b.now)).got) }
{
    if is_longer(most, a, b, live, cc_live) {
        return Ok(Joined::Not);
    }
    let joined = come_to(alloc, a, b, live, cc_live)?;
    Ok(cut(most, joined))
}

//! The transfers of the second instruction of a pair, read through the first.
ghost use Rattle.std.specs.Prelude.{◌≡◌, ◌++◌, ◌∷◌, [], IfOk, OnOk, filter};
ghost use Rattle.std.specs.Option.{option_to_list};
ghost use Rattle.po_term.specs.Terms.{tree_of};
ghost use Rattle.po_term.specs.Moves.{branch_of, SetTo, CcTo, StoreTo, Ends, IfTwo, move_of, moves_of, instr_of};
ghost use Rattle.po_term.specs.Kinds.{words};
ghost use Rattle.po_model.specs.Parts.{code_leaves, cc_of};
ghost use Rattle.po_model.specs.Joined.{is_wanted, forward_branch, forward_move, forward_moves};
ghost use Rattle.po_subst.specs.Seen.{is_among, tree_made};
ghost use Rattle.po_subst.specs.Found.{known_moves, behind, instr_made, move_made, wanted_move};

use crate::choosing::is_wanted;
use crate::forwarding::forward;
use crate::parts::compared;
use po_simplify::decide;
use po_term::{Cond, Instr, Label, Reg, Term, Transfer, copy_term};
use po_word::{OutOfMemory, Rel, push};
use std::alloc::Global;

/// Appends a transfer, where there is one.
fn push_some(xs: &mut Vec<Transfer>, t: Option<Transfer>) -> Result<(), OutOfMemory>
    ensures { OnOk result (moves_of xs.new.items ≡ moves_of xs.old.items ++ moves_of (option_to_list t)) }
{
    match t {
        Some(t) => push(xs, t),
        None => Ok(()),
    }
}

/// A set with its term forwarded.
fn forward_set(alloc: Global, a: &Instr, r: Reg, u: &Term) -> Result<Option<Transfer>, OutOfMemory>
    ensures { IfOk result (λ made. move_made made
        ≡ (forward_move words code_leaves (instr_of a.now) (SetTo r (tree_of u.now))).got) }
{
    match forward(alloc, a, u)? {
        Some(u) => Ok(Some(Transfer::Set(r, u))),
        None => Ok(None),
    }
}

/// A comparison with its terms forwarded.
fn forward_compared(
    alloc: Global,
    a: &Instr,
    u: &Term,
    v: &Term,
) -> Result<Option<Transfer>, OutOfMemory>
    ensures { IfOk result (λ made. move_made made
        ≡ (forward_move words code_leaves (instr_of a.now) (CcTo (tree_of u.now) (tree_of v.now))).got) }
{
    match forward(alloc, a, u)? {
        Some(u) => match forward(alloc, a, v)? {
            Some(v) => Ok(Some(Transfer::Cc(u, v))),
            None => Ok(None),
        },
        None => Ok(None),
    }
}

/// A store with its terms forwarded.
fn forward_stored(
    alloc: Global,
    a: &Instr,
    u: &Term,
    v: &Term,
) -> Result<Option<Transfer>, OutOfMemory>
    ensures { IfOk result (λ made. move_made made
        ≡ (forward_move words code_leaves (instr_of a.now) (StoreTo (tree_of u.now) (tree_of v.now))).got) }
{
    match forward(alloc, a, u)? {
        Some(u) => match forward(alloc, a, v)? {
            Some(v) => Ok(Some(Transfer::Store(u, v))),
            None => Ok(None),
        },
        None => Ok(None),
    }
}

/// What a branch on cc becomes: a branch on what the first instruction compares, where it does.
fn forward_cc(
    alloc: Global,
    a: &Instr,
    rel: Rel,
    to: Label,
) -> Result<Option<Transfer>, OutOfMemory>
    ensures { IfOk result (λ kept. moves_of (option_to_list kept)
        ≡ (forward_branch words code_leaves (cc_of (instr_of a.now)) rel to).got) }
{
    match compared(a) {
        Some((u, v)) => {
            let u = copy_term(alloc, u)?;
            let v = copy_term(alloc, v)?;
            Ok(decide(u, v, rel, to))
        }
        None => Ok(Some(Transfer::If(Cond::Cc, rel, to))),
    }
}

/// Appends what a branch on two terms becomes; false where that isn't known.
fn push_branch_on_two(
    alloc: Global,
    xs: &mut Vec<Transfer>,
    a: &Instr,
    u: &Term,
    v: &Term,
    rel: Rel,
    to: Label,
) -> Result<bool, OutOfMemory>
    ensures { IfOk result (λ known. known_moves known xs.new.items
        ≡ behind xs.old.items
        (forward_move words code_leaves (instr_of a.now) (Ends (IfTwo (tree_of u.now) (tree_of v.now) rel to))).got) }
{
    match forward(alloc, a, u)? {
        Some(u) => match forward(alloc, a, v)? {
            Some(v) => {
                push_some(xs, decide(u, v, rel, to))?;
                Ok(true)
            }
            None => Ok(false),
        },
        None => Ok(false),
    }
}

/// Appends what a branch becomes; false where that isn't known.
fn push_branch(
    alloc: Global,
    xs: &mut Vec<Transfer>,
    a: &Instr,
    cond: &Cond,
    rel: Rel,
    to: Label,
) -> Result<bool, OutOfMemory>
    ensures { IfOk result (λ known. known_moves known xs.new.items
        ≡ behind xs.old.items
        (forward_move words code_leaves (instr_of a.now) (Ends (branch_of cond.now rel to))).got) }
{
    match cond {
        Cond::Cc => {
            let branch = forward_cc(alloc, a, rel, to)?;
            push_some(xs, branch)?;
            Ok(true)
        }
        Cond::Two(u, v) => push_branch_on_two(alloc, xs, a, u, v, rel, to),
    }
}

/// Appends a transfer, where it is known; else false.
fn push_known(xs: &mut Vec<Transfer>, t: Option<Transfer>) -> Result<bool, OutOfMemory>
    ensures { IfOk result (λ known. known_moves known xs.new.items ≡ behind xs.old.items (move_made t)) }
{
    match t {
        Some(t) => {
            push(xs, t)?;
            Ok(true)
        }
        None => Ok(false),
    }
}

/// Appends what a transfer becomes that is read after the instruction a; false where that isn't known.
fn push_forwarded(
    alloc: Global,
    xs: &mut Vec<Transfer>,
    a: &Instr,
    t: &Transfer,
) -> Result<bool, OutOfMemory>
    ensures { IfOk result (λ known. known_moves known xs.new.items
        ≡ behind xs.old.items (forward_move words code_leaves (instr_of a.now) (move_of t.now)).got) }
{
    match t {
        Transfer::Set(r, u) => {
            let t = forward_set(alloc, a, *r, u)?;
            push_known(xs, t)
        }
        Transfer::Cc(u, v) => {
            let t = forward_compared(alloc, a, u, v)?;
            push_known(xs, t)
        }
        Transfer::Store(u, v) => {
            let t = forward_stored(alloc, a, u, v)?;
            push_known(xs, t)
        }
        Transfer::Goto(l) => push_known(xs, Some(Transfer::Goto(*l))),
        Transfer::If(cond, rel, to) => push_branch(alloc, xs, a, cond, *rel, *to),
        Transfer::Call(s, n) => push_known(xs, Some(Transfer::Call(*s, *n))),
        Transfer::Ret => push_known(xs, Some(Transfer::Ret)),
    }
}

/// Appends what a transfer becomes that is read after the instruction a, and nothing where it isn't wanted; false
/// where what it becomes isn't known.
fn push_wanted(
    alloc: Global,
    xs: &mut Vec<Transfer>,
    a: &Instr,
    t: &Transfer,
    live: &[Reg],
    cc_live: bool,
) -> Result<bool, OutOfMemory>
    ensures { IfOk result (λ known. known_moves known xs.new.items
        ≡ behind xs.old.items (wanted_move (is_among live.now) cc_live (instr_of a.now) (move_of t.now))) }
{
    if is_wanted(t, live, cc_live) {
        push_forwarded(alloc, xs, a, t)
    } else {
        Ok(true)
    }
}

/// The wanted transfers of the instruction b, read after the instruction a; `None` where one isn't known.
pub fn forward_wanted(
    alloc: Global,
    a: &Instr,
    b: &Instr,
    live: &[Reg],
    cc_live: bool,
) -> Result<Option<Instr>, OutOfMemory>
    ensures { IfOk result (λ made. instr_made made
        ≡ (forward_moves words code_leaves (instr_of a.now)
        (filter (is_wanted (is_among live.now) cc_live) (instr_of b.now))).got) }
{
    let mut xs = Vec::new(alloc);
    for t in &b.xs {
        if !push_wanted(alloc, &mut xs, a, t, live, cc_live)? {
            return Ok(None);
        }
    }
    Ok(Some(Instr { xs }))
}

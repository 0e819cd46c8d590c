//! Values put into the holes of a result.
ghost use Rattle.std.specs.Prelude.{◌≡◌, ◌++◌, ◌∷◌, [], map, OnOk, IfOk};
ghost use Rattle.po_term.specs.Tree.{EachLeaf};
ghost use Rattle.po_term.specs.Terms.{tree_of};
ghost use Rattle.po_term.specs.Moves.{move_of, moves_of, instr_of};
ghost use Rattle.po_model.specs.Combined.{combination_of};
ghost use Rattle.po_model.specs.Holed.{values_of, hole_tree_of, hole_move_of, hole_moves_of, result_of, label_hole};
ghost use Rattle.po_model.specs.Put.{put_register, put_symbol, put_place, put_label, put_move, put_tree, put};
ghost use Rattle.po_model.specs.Put.{HasRegister, HasSymbol, HasPlace, HasMove, HasMoves, HasValues};

use po_model::{Outcome, PCond, PReg, PTerm, PTransfer, Pattern, Values};
use po_term::{Cond, Instr, Label, Reg, Sym, Term, Transfer};
use po_word::{OutOfMemory, push, value};
use std::alloc::Global;

fn put_register(v: &Values, r: PReg) -> Reg
    requires { HasRegister (values_of v.now) r }
    ensures { result ≡ put_register (values_of v.now) r }
{
    match r {
        PReg::Hole(k) => v.regs[usize::from(k)],
        PReg::Fixed(r) => r,
    }
}

fn put_symbol(v: &Values, k: u16) -> Sym
    requires { HasSymbol (values_of v.now) k }
    ensures { result ≡ put_symbol (values_of v.now) k }
{
    v.syms[usize::from(k)]
}

/// The label of a pair, where it has one.
fn put_label(v: &Values) -> Label
    ensures { result ≡ put_label (values_of v.now) label_hole }
{
    match v.label {
        Some(l) => l,
        None => Label(0),
    }
}

fn boxed(alloc: Global, t: Term) -> Result<Box<Term>, OutOfMemory>
    ensures { IfOk result (λ b. b.value ≡ t) }
{
    Ok(Box::new(alloc, t)?)
}

fn put_term(alloc: Global, v: &Values, t: &PTerm) -> Result<Term, OutOfMemory>
    requires { EachLeaf (HasPlace (values_of v.now)) (hole_tree_of t.now) }
    ensures { IfOk result (λ x. tree_of x ≡ put_tree (values_of v.now) (hole_tree_of t.now)) }
{
    match t {
        PTerm::Const(e) => Ok(Term::Num(value(e, &v.consts))),
        PTerm::Reg(r) => Ok(Term::Reg(put_register(v, *r))),
        PTerm::Addr(k) => Ok(Term::Addr(put_symbol(v, *k))),
        PTerm::Mem(x) => Ok(Term::Mem(boxed(alloc, put_term(alloc, v, x)?)?)),
        PTerm::Un(op, x) => Ok(Term::Un(*op, boxed(alloc, put_term(alloc, v, x)?)?)),
        PTerm::Bin(op, x, y) => {
            let x = boxed(alloc, put_term(alloc, v, x)?)?;
            let y = boxed(alloc, put_term(alloc, v, y)?)?;
            Ok(Term::Bin(*op, x, y))
        }
    }
}

fn put_transfer(alloc: Global, v: &Values, t: &PTransfer) -> Result<Transfer, OutOfMemory>
    requires { HasMove (values_of v.now) (hole_move_of t.now) }
    ensures { IfOk result (λ x. move_of x ≡ put_move (values_of v.now) (hole_move_of t.now)) }
{
    match t {
        PTransfer::Set(r, x) => {
            let x = put_term(alloc, v, x)?;
            Ok(Transfer::Set(put_register(v, *r), x))
        }
        PTransfer::Cc(x, y) => {
            let x = put_term(alloc, v, x)?;
            let y = put_term(alloc, v, y)?;
            Ok(Transfer::Cc(x, y))
        }
        PTransfer::Store(x, y) => {
            let x = put_term(alloc, v, x)?;
            let y = put_term(alloc, v, y)?;
            Ok(Transfer::Store(x, y))
        }
        PTransfer::Goto => Ok(Transfer::Goto(put_label(v))),
        PTransfer::If(PCond::Cc, rel) => Ok(Transfer::If(Cond::Cc, *rel, put_label(v))),
        PTransfer::If(PCond::Two(x, y), rel) => {
            let x = put_term(alloc, v, x)?;
            let y = put_term(alloc, v, y)?;
            Ok(Transfer::If(Cond::Two(x, y), *rel, put_label(v)))
        }
        PTransfer::Call(k, n) => Ok(Transfer::Call(put_symbol(v, *k), *n)),
        PTransfer::Ret => Ok(Transfer::Ret),
    }
}

fn add_transfer(
    alloc: Global,
    v: &Values,
    t: &PTransfer,
    out: &mut Vec<Transfer>,
) -> Result<(), OutOfMemory>
    requires { HasMove (values_of v.now) (hole_move_of t.now) }
    ensures { OnOk result (moves_of out.new.items
        ≡ moves_of out.old.items ++ put_move (values_of v.now) (hole_move_of t.now) ∷ []) }
{
    let x = put_transfer(alloc, v, t)?;
    push(out, x)
}

fn put_transfers(alloc: Global, v: &Values, xs: &[PTransfer]) -> Result<Instr, OutOfMemory>
    requires { HasMoves (values_of v.now) (hole_moves_of xs.now) }
    ensures { IfOk result (λ i. instr_of i ≡ map (put_move (values_of v.now)) (hole_moves_of xs.now)) }
{
    let mut out = Vec::new(alloc);
    for t in xs {
        add_transfer(alloc, v, t, &mut out)?;
    }
    Ok(Instr { xs: out })
}

/// What becomes of a pair whose values these are, by a rule's result (docs/RULES.md, "Values put into holes"). Each
/// hole of the result has its value, and there is a label where it has a jump or a branch. It fails only where memory
/// is refused.
pub fn instantiate(alloc: Global, r: &Pattern, v: &Values) -> Result<Outcome, OutOfMemory>
    requires { HasValues (values_of v.now) (result_of r.now) }
    ensures { IfOk result (λ o. combination_of o ≡ put (values_of v.now) (result_of r.now)) }
{
    match r {
        Pattern::Keep => Ok(Outcome::Keep),
        Pattern::Nothing => Ok(Outcome::Nothing),
        Pattern::One(xs) => Ok(Outcome::One(put_transfers(alloc, v, xs)?)),
    }
}

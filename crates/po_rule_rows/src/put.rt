//! Values put into results, beside the instructions that they give.
ghost use Rattle.std.specs.Prelude.{◌≡◌, length, IfOk, IsSome};
ghost use Rattle.po_term.specs.Tree.{Binary, Const, Leaf};
ghost use Rattle.po_term.specs.Moves.{SetTo};
ghost use Rattle.po_model.specs.Holed.{values_of, hole_move_of, InPReg};
ghost use Rattle.po_model.specs.Put.{HasMove};
ghost use Rattle.po_word.specs.Views.{expr_of};
ghost use Rattle.po_model.specs.declared.hole.PReg.TheVariants.{Hole};

use po_model::{Outcome, PReg, PTerm, PTransfer, Pattern, Values};
use po_skel::instantiate;
use po_term::Label;
use po_term::Reg::{self, Virt};
use po_termtext::print_instr;
use po_word::{Bin, CExpr, OutOfMemory};
use std::alloc::Global;
use std::test::Fail;

/// Three registers, a constant, and the label L5.
fn values(alloc: Global, regs: [Reg; 3], constant: u32) -> Result<Values, OutOfMemory>
    ensures regs { IfOk result (λ v. length v.regs.items ≡ 3) }
    ensures consts { IfOk result (λ v. length v.consts.items ≡ 1) }
    ensures label { IfOk result (λ v. IsSome v.label) }
{
    let [first, second, third] = regs;
    Ok(Values {
        regs: vec![in alloc; first, second, third]?,
        syms: vec![in alloc]?,
        label: Some(Label(5)),
        consts: vec![in alloc; constant]?,
    })
}

/// `%1 := (%2 op e)`
fn set(alloc: Global, op: Bin, e: CExpr) -> Result<PTransfer, OutOfMemory>
    ensures { IfOk result (λ t. hole_move_of t
        ≡ SetTo (Hole 1) (Binary op (Leaf (InPReg (Hole 2))) (Const (expr_of e)))) }
{
    let register = Box::new(alloc, PTerm::Reg(PReg::Hole(2)))?;
    let constant = Box::new(alloc, PTerm::Const(e))?;
    Ok(PTransfer::Set(PReg::Hole(1), PTerm::Bin(op, register, constant)))
}

/// The text of what a transfer becomes.
fn text(alloc: Global, t: PTransfer, v: &Values) -> Result<Vec<u8>, Fail>
    requires { HasMove (values_of v.now) (hole_move_of t) }
{
    let mut xs = Vec::new(alloc);
    xs.push(t)?;
    match instantiate(alloc, &Pattern::One(xs), v)? {
        Outcome::One(i) => Ok(print_instr(alloc, &i)?),
        _ => Err(Fail::from("no list")),
    }
}

/// Registers for the holes, the constant, and what `%1 := (%2 + #0)` becomes.
const SUMS: [([Reg; 3], u32, &str); 3] = [
    ([Virt(3), Virt(4), Virt(2)], 1, "v4 := (v2 + 1)"),
    ([Virt(7), Virt(9), Virt(0)], 0xffff_fffb, "v9 := (v0 + -5)"),
    (
        [Virt(0), Virt(1), Virt(2)],
        0x8000_0000,
        "v1 := (v2 + -2147483648)",
    ),
];

fn is_sum(alloc: Global, regs: [Reg; 3], constant: u32, want: &str) -> Result<bool, Fail> {
    let v = values(alloc, regs, constant)?;
    let t = set(alloc, Bin::Add, CExpr::Hole(0))?;
    Ok(text(alloc, t, &v)?.as_slice() == want.as_bytes())
}

#[test]
fn sums(rt: HostRuntime) -> Result<(), Fail> {
    for (regs, constant, want) in SUMS {
        assert!(rt; is_sum(rt.alloc(), regs, constant, want)?, "{want}");
    }
    Ok(())
}

#[test]
fn others(rt: HostRuntime) -> Result<(), Fail> {
    let alloc = rt.alloc();
    let v = values(alloc, [Virt(1), Virt(2), Virt(0)], 8)?;
    let place = CExpr::Log2(Box::new(alloc, CExpr::Hole(0))?);
    let shifted = set(alloc, Bin::Shl, place)?;
    assert!(rt; text(alloc, shifted, &v)?.as_slice() == b"v2 := (v0 << 3)".as_slice());
    assert!(rt; text(alloc, PTransfer::Goto, &v)?.as_slice() == b"goto L5".as_slice());
    let kept = instantiate(alloc, &Pattern::Keep, &v)?;
    assert!(rt; matches!(kept, Outcome::Keep), "keep");
    let gone = instantiate(alloc, &Pattern::Nothing, &v)?;
    assert!(rt; matches!(gone, Outcome::Nothing), "nothing");
    Ok(())
}

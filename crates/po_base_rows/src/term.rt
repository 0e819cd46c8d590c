//! Instructions on both sides of each rule of their form, and happy paths of the other calls.
ghost use Rattle.std.specs.Prelude.{◌≡◌, IfOk};
ghost use Rattle.po_term.specs.Tree.{Const, Unary, Binary};
ghost use Rattle.po_term.specs.Terms.{tree_of};

use po_term::{
    Cond, Instr, Label, Reg, Sym, Term, Transfer, copy_instr, copy_term, depth, same_term, size,
    well_formed,
};
use po_word::{Bin, OutOfMemory, Rel, Un};
use std::alloc::Global;
use std::test::Fail;

/// Instructions, a letter for each transfer (`transfer` says which), and whether they are well formed.
const FORMS: [(&str, bool); 39] = [
    // 1 to 4 transfers
    ("", false),
    ("s", true),
    ("scmr", true),
    ("stwx", true),
    ("stwxy", false),
    ("stcmr", false),
    // each kind alone
    ("c", true),
    ("m", true),
    ("g", true),
    ("b", true),
    ("i", true),
    ("r", true),
    // the order sets, cc, store, control
    ("sm", true),
    ("cr", true),
    ("cs", false),
    ("mc", false),
    ("ms", false),
    ("rm", false),
    ("sgt", false),
    // one cc, one store, one control
    ("cc", false),
    ("mm", false),
    ("gr", false),
    // a register is set once
    ("st", true),
    ("ss", false),
    ("stS", false),
    // fp is read and not set; arg 0 to 3, as a target and in a term
    ("p", true),
    ("f", false),
    ("A", false),
    ("B", false),
    // a call has 0 to 4 arguments
    ("l", true),
    ("L", false),
    // 64 nodes, and depth 16
    ("n", true),
    ("N", false),
    ("d", true),
    ("D", false),
    // the limits hold in each place of a term
    ("sC", false),
    ("sM", false),
    ("sE", false),
    ("sI", false),
];

fn transfer(alloc: Global, letter: u8) -> Result<Transfer, OutOfMemory> {
    let v = |n: u32| Term::Reg(Reg::Virt(n));
    Ok(match letter {
        b's' => Transfer::Set(Reg::Virt(0), Term::Num(1)),
        b'S' => Transfer::Set(Reg::Virt(0), Term::Num(2)),
        b't' => Transfer::Set(Reg::Virt(1), Term::Num(1)),
        b'w' => Transfer::Set(Reg::Rv, Term::Num(1)),
        b'x' => Transfer::Set(Reg::Arg(0), Term::Num(1)),
        b'y' => Transfer::Set(Reg::Arg(1), Term::Num(1)),
        b'p' => Transfer::Set(Reg::Arg(3), Term::Reg(Reg::Fp)),
        b'f' => Transfer::Set(Reg::Fp, Term::Num(1)),
        b'A' => Transfer::Set(Reg::Arg(4), Term::Num(1)),
        b'B' => Transfer::Set(Reg::Virt(0), Term::Reg(Reg::Arg(4))),
        b'c' => Transfer::Cc(v(0), Term::Num(1)),
        b'C' => Transfer::Cc(v(0), Term::Reg(Reg::Arg(4))),
        b'm' => Transfer::Store(v(0), Term::Num(1)),
        b'M' => Transfer::Store(negated(alloc, 17)?, Term::Num(1)),
        b'E' => Transfer::Store(v(0), many(alloc, 65)?),
        b'g' => Transfer::Goto(Label(0)),
        b'b' => Transfer::If(Cond::Cc, Rel::Eq, Label(0)),
        b'i' => Transfer::If(Cond::Two(v(0), Term::Num(1)), Rel::Eq, Label(0)),
        b'I' => Transfer::If(Cond::Two(v(0), many(alloc, 65)?), Rel::Eq, Label(0)),
        b'l' => Transfer::Call(Sym(0), 4),
        b'L' => Transfer::Call(Sym(0), 5),
        b'n' => Transfer::Set(Reg::Virt(0), many(alloc, 64)?),
        b'N' => Transfer::Set(Reg::Virt(0), many(alloc, 65)?),
        b'd' => Transfer::Set(Reg::Virt(0), negated(alloc, 16)?),
        b'D' => Transfer::Set(Reg::Virt(0), negated(alloc, 17)?),
        _ => Transfer::Ret,
    })
}

fn instr(alloc: Global, letters: &str) -> Result<Instr, OutOfMemory> {
    let mut xs = Vec::new(alloc);
    for letter in letters.as_bytes() {
        xs.push(transfer(alloc, *letter)?)?;
    }
    Ok(Instr { xs })
}

/// A term of this depth, from 1 on: negations of a number.
fn negated(alloc: Global, depth: u32) -> Result<Term, OutOfMemory> {
    let mut t = Term::Num(1);
    for _ in 1..depth {
        t = un(alloc, Un::Neg, t)?;
    }
    Ok(t)
}

/// A term of 63 nodes and depth 6, below as many more nodes as are wanted.
fn many(alloc: Global, nodes: u32) -> Result<Term, OutOfMemory> {
    let mut t = Term::Reg(Reg::Virt(7));
    for _ in 1..6 {
        let u = copy_term(alloc, &t)?;
        t = bin(alloc, Bin::Add, t, u)?;
    }
    for _ in 63..nodes {
        t = un(alloc, Un::Not, t)?;
    }
    Ok(t)
}

fn un(alloc: Global, op: Un, t: Term) -> Result<Term, OutOfMemory>
    ensures { IfOk result (λ r. tree_of r ≡ Unary op (tree_of t)) }
{
    Ok(Term::Un(op, Box::new(alloc, t)?))
}

fn bin(alloc: Global, op: Bin, t: Term, u: Term) -> Result<Term, OutOfMemory>
    ensures { IfOk result (λ r. tree_of r ≡ Binary op (tree_of t) (tree_of u)) }
{
    let t = Box::new(alloc, t)?;
    let u = Box::new(alloc, u)?;
    Ok(Term::Bin(op, t, u))
}

#[test]
fn forms(rt: HostRuntime) -> Result<(), Fail> {
    for (letters, want) in FORMS {
        let i = instr(rt.alloc(), letters)?;
        assert_eq!(rt; well_formed(&i), want, "{letters}");
    }
    Ok(())
}

/// The sum of a term and a number.
fn plus(alloc: Global, t: Term, c: u32) -> Result<Term, OutOfMemory>
    ensures { IfOk result (λ r. tree_of r ≡ Binary Bin.Add (tree_of t) (Const c)) }
{
    bin(alloc, Bin::Add, t, Term::Num(c))
}

/// The word of -5.
const MINUS_5: u32 = 0xffff_fffb;

#[test]
fn copies_and_sizes(rt: HostRuntime) -> Result<(), Fail> {
    let alloc = rt.alloc();
    let five = plus(alloc, Term::Reg(Reg::Virt(1)), 5)?;
    let both = plus(alloc, plus(alloc, Term::Reg(Reg::Virt(0)), 5)?, MINUS_5)?;
    let minus = plus(alloc, Term::Reg(Reg::Virt(1)), MINUS_5)?;
    assert_eq!(rt; (size(&five), depth(&five)), (3, 2), "(v1 + 5)");
    assert_eq!(rt; (size(&both), depth(&both)), (5, 3), "((v0 + 5) + -5)");
    for t in [&five, &both, &minus] {
        let copy = copy_term(alloc, t)?;
        assert!(rt; same_term(&copy, t));
    }
    assert!(rt; !same_term(&five, &minus), "(v1 + 5) and (v1 + -5)");
    Ok(())
}

#[test]
fn copied_instruction(rt: HostRuntime) -> Result<(), Fail> {
    let alloc = rt.alloc();
    let i = instr(alloc, "ncmi")?;
    let copy = copy_instr(alloc, &i)?;
    assert_eq!(rt; copy.xs.len(), i.xs.len());
    for (x, y) in i.xs.iter().zip(copy.xs.iter()) {
        assert!(rt; same_transfer(x, y));
    }
    Ok(())
}

fn same_transfer(x: &Transfer, y: &Transfer) -> bool {
    match (x, y) {
        (Transfer::Set(r, t), Transfer::Set(q, u)) => r == q && same_term(t, u),
        (Transfer::Cc(t, u), Transfer::Cc(v, w)) => same_term(t, v) && same_term(u, w),
        (Transfer::Store(t, u), Transfer::Store(v, w)) => same_term(t, v) && same_term(u, w),
        (Transfer::If(Cond::Two(t, u), r, l), Transfer::If(Cond::Two(v, w), q, m)) => {
            same_term(t, v) && same_term(u, w) && r == q && l == m
        }
        _ => false,
    }
}

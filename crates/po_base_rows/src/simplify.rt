//! Terms and instructions beside what the table of docs/OPTIMISER.md makes of them, worked out by hand.
use po_simplify::{make_bin, make_un, simplify, simplify_instr};
use po_term::{Cond, Instr, Label, Term, Transfer};
use po_termtext::{print_instr, print_term, read_term};
use po_word::{Bin, Rel, Un};
use std::alloc::Global;
use std::test::Fail;

fn term(alloc: Global, text: &str) -> Result<Term, Fail> {
    let term = read_term(alloc, text.as_bytes())?;
    Ok(term.ok_or("no term")?)
}

/// A term, and what it becomes.
const TERMS: [(&str, &str); 24] = [
    ("((v0 + 5) + -5)", "v0"),
    ("(3 + (v0 * 8))", "((v0 << 3) + 3)"),
    ("((v0 + 1) + (v1 + -1))", "(v0 + v1)"),
    ("(0 - v0)", "neg(v0)"),
    ("(v0 << 32)", "(v0 << 32)"),
    ("(1 << 33)", "2"),
    ("(v0 * -2147483648)", "(v0 << 31)"),
    ("M[(4 + fp)]", "M[(fp + 4)]"),
    ("((v0 + 2) - (v1 + 2))", "((v0 + 2) - (v1 + 2))"),
    ("(v0 - 3)", "(v0 + -3)"),
    ("(v0 - v0)", "0"),
    ("(arg1 - arg2)", "(arg1 - arg2)"),
    ("(M[v0] - M[v0])", "(M[v0] - M[v0])"),
    ("(v0 + neg(v1))", "(v0 - v1)"),
    ("((v0 + 7) + v1)", "((v0 + v1) + 7)"),
    ("neg(neg(v0))", "v0"),
    ("not(not(v0))", "v0"),
    ("not(7)", "-8"),
    ("((v0 * 3) * 5)", "(v0 * 15)"),
    ("(0 * v0)", "0"),
    ("((v0 & 12) & 10)", "(v0 & 8)"),
    ("(-1 & v0)", "v0"),
    ("((v0 ^ 5) ^ 5)", "v0"),
    ("((0 | v0) >> 0)", "v0"),
];

#[test]
fn terms(rt: HostRuntime) -> Result<(), Fail> {
    let alloc = rt.alloc();
    for (before, after) in TERMS {
        let got = simplify(alloc, term(alloc, before)?)?;
        let text = print_term(alloc, &got)?;
        assert!(rt; text.as_slice() == after.as_bytes(), "{before}");
    }
    Ok(())
}

#[test]
fn constructors(rt: HostRuntime) -> Result<(), Fail> {
    let alloc = rt.alloc();
    let made = make_un(alloc, Un::Neg, term(alloc, "neg(v0)")?)?;
    let text = print_term(alloc, &made)?;
    assert!(rt; text.as_slice() == b"v0".as_slice(), "neg(neg(v0))");
    let made = make_bin(alloc, Bin::Add, Term::Num(3), term(alloc, "(v0 + -3)")?)?;
    let text = print_term(alloc, &made)?;
    assert!(rt; text.as_slice() == b"v0".as_slice(), "(3 + (v0 + -3))");
    Ok(())
}

/// An instruction of one transfer.
#[derive(Clone, Copy)]
enum Step {
    /// `if t ? u r goto L0`
    Branch(&'static str, Rel, &'static str),
    /// `M[t] := u`
    Store(&'static str, &'static str),
}

/// An instruction, and the text of what it becomes.
const INSTRS: [(Step, &str); 4] = [
    (Step::Branch("-1", Rel::Lt, "(1 + 1)"), "goto L0"),
    // by the unsigned view it is never taken
    (Step::Branch("-1", Rel::Ltu, "2"), ""),
    (Step::Branch("v0", Rel::Eq, "2"), "if v0 ? 2 eq goto L0"),
    (Step::Store("(4 + fp)", "(1 + 2)"), "M[(fp + 4)] := 3"),
];

fn transfer(alloc: Global, step: Step) -> Result<Transfer, Fail> {
    match step {
        Step::Branch(t, rel, u) => {
            let t = term(alloc, t)?;
            let u = term(alloc, u)?;
            Ok(Transfer::If(Cond::Two(t, u), rel, Label(0)))
        }
        Step::Store(t, u) => {
            let t = term(alloc, t)?;
            let u = term(alloc, u)?;
            Ok(Transfer::Store(t, u))
        }
    }
}

#[test]
fn instructions(rt: HostRuntime) -> Result<(), Fail> {
    let alloc = rt.alloc();
    for (step, after) in INSTRS {
        let mut xs = Vec::new(alloc);
        xs.push(transfer(alloc, step)?)?;
        let got = simplify_instr(alloc, Instr { xs })?;
        let text = print_instr(alloc, &got)?;
        assert!(rt; text.as_slice() == after.as_bytes(), "{after}");
    }
    Ok(())
}

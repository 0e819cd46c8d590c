//! Texts that are terms and texts that are none, and printed instructions.
use po_term::{Cond, Instr, Label, Reg, Sym, Term, Transfer};
use po_termtext::{one_term_a_text, print_instr, print_term, read_term};
use po_word::{Bin, Rel};
use std::alloc::Global;
use std::test::Fail;

/// Each is a term's text. The last two are at the limits: depth 16, and 64 nodes.
const TERMS: [&str; 24] = [
    "v0",
    "v1",
    "v4294967295",
    "fp",
    "rv",
    "arg0",
    "arg3",
    "&s0",
    "&s12",
    "0",
    "12",
    "-1",
    "2147483647",
    "-2147483648",
    "(v0 + 5)",
    "(v1 + -5)",
    "(v0 - -5)",
    "M[(fp - 8)]",
    "neg(v1)",
    "not(M[&s3])",
    "(1 * (2 & (3 | (4 ^ 5))))",
    "((v0 << 1) >> (v1 >>> 31))",
    "M[M[M[M[M[M[M[M[M[M[M[M[M[M[M[v0]]]]]]]]]]]]]]]",
    "neg(\
        (((((v0 + v0) + (v0 + v0)) + ((v0 + v0) + (v0 + v0))) + (((v0 + v0) + (v0 + v0)) + ((v0 + v0) + (v0 + v0)))) \
        + ((((v0 + v0) + (v0 + v0)) + ((v0 + v0) + (v0 + v0))) + (((v0 + v0) + (v0 + v0)) + ((v0 + v0) + (v0 + v0))))\
        ))",
];

/// None is a term's text. The last two are beyond the limits: depth 17, and 65 nodes.
const OTHERS: [&str; 37] = [
    "",
    "(v0",
    "-0",
    "007",
    "2147483648",
    "-2147483649",
    "4294967296",
    "99999999999999999999",
    "v01",
    "v",
    "v4294967296",
    "arg4",
    "arg",
    "sp",
    "&s",
    "&s00",
    "&7",
    "+5",
    "(v0 +v1)",
    "(v0+ v1)",
    "(v0  + v1)",
    "( v0 + v1)",
    "(v0 + v1) ",
    "(v0 + v1))",
    "(v0 >>>> v1)",
    "(v0 > v1)",
    "(v0 / v1)",
    "v0 + v1",
    "M[v0",
    "M v0]",
    "M[v0)",
    "neg v0",
    "neg(v0]",
    "v0 ",
    "V0",
    "M[M[M[M[M[M[M[M[M[M[M[M[M[M[M[M[v0]]]]]]]]]]]]]]]]",
    "neg(neg(\
        (((((v0 + v0) + (v0 + v0)) + ((v0 + v0) + (v0 + v0))) + (((v0 + v0) + (v0 + v0)) + ((v0 + v0) + (v0 + v0)))) \
        + ((((v0 + v0) + (v0 + v0)) + ((v0 + v0) + (v0 + v0))) + (((v0 + v0) + (v0 + v0)) + ((v0 + v0) + (v0 + v0))))\
        )))",
];

#[test]
fn texts_are_read(rt: HostRuntime) -> Result<(), Fail> {
    for text in TERMS {
        match read_term(rt.alloc(), text.as_bytes())? {
            Some(term) => {
                let printed = print_term(rt.alloc(), &term)?;
                assert_eq!(rt; printed.as_slice(), text.as_bytes());
            }
            None => panic!(rt; "{text} is a term"),
        }
    }
    for text in OTHERS {
        let read = read_term(rt.alloc(), text.as_bytes())?;
        assert!(rt; read.is_none(), "{text} is no term");
    }
    let brackets = vec![in rt.alloc(); b'('; 4096]?;
    assert!(rt; read_term(rt.alloc(), &brackets)?.is_none());
    one_term_a_text();
    Ok(())
}

fn printed(alloc: Global, transfer: Transfer) -> Result<Vec<u8>, Fail> {
    let one = Instr {
        xs: vec![in alloc; transfer]?,
    };
    Ok(print_instr(alloc, &one)?)
}

/// A register and a constant, added.
fn sum(alloc: Global, register: u32, constant: u32) -> Result<Term, Fail> {
    let left = Box::new(alloc, Term::Reg(Reg::Virt(register)))?;
    let right = Box::new(alloc, Term::Num(constant))?;
    Ok(Term::Bin(Bin::Add, left, right))
}

#[test]
fn instructions_are_printed(rt: HostRuntime) -> Result<(), Fail> {
    let four = Instr {
        xs: vec![in rt.alloc();
            Transfer::Set(Reg::Virt(1), sum(rt.alloc(), 0, 5)?),
            Transfer::Cc(sum(rt.alloc(), 1, 4294967291)?, Term::Num(0)),
            Transfer::Store(Term::Reg(Reg::Fp), Term::Addr(Sym(7))),
            Transfer::If(Cond::Cc, Rel::Ltu, Label(3)),
        ]?,
    };
    let text = print_instr(rt.alloc(), &four)?;
    assert_eq!(rt;
        text.as_slice(),
        b"v1 := (v0 + 5) ; cc := (v1 + -5) ? 0 ; M[fp] := &s7 ; if cc ltu goto L3".as_slice()
    );
    let two = Cond::Two(Term::Num(1), Term::Reg(Reg::Arg(2)));
    let branch = printed(rt.alloc(), Transfer::If(two, Rel::Ge, Label(12)))?;
    assert_eq!(rt; branch.as_slice(), b"if 1 ? arg2 ge goto L12".as_slice());
    let jump = printed(rt.alloc(), Transfer::Goto(Label(0)))?;
    assert_eq!(rt; jump.as_slice(), b"goto L0".as_slice());
    let call = printed(rt.alloc(), Transfer::Call(Sym(2), 3))?;
    assert_eq!(rt; call.as_slice(), b"call &s2 3".as_slice());
    let back = printed(rt.alloc(), Transfer::Ret)?;
    assert_eq!(rt; back.as_slice(), b"ret".as_slice());
    Ok(())
}

//! Pairs of instructions beside what docs/OPTIMISER.md makes of them, worked out by hand.
use self::Becomes::{Nothing, One, Two};
use crate::texts::{instr, pair, says, term};
use po_subst::{Joined, alias, forward, together};
use po_term::Alias;
use std::alloc::Global;
use std::test::Fail;

/// Two addresses, and how they meet.
const ADDRESSES: [(&str, &str, Alias); 6] = [
    ("(fp + 4)", "v3", Alias::Maybe),
    ("(fp + 4)", "(fp + 5)", Alias::Apart),
    ("(fp + 4)", "(fp + 4)", Alias::Same),
    ("fp", "(fp + 4)", Alias::Apart),
    ("(fp + 4)", "(v3 + 4)", Alias::Maybe),
    ("4", "(fp + 4)", Alias::Maybe),
];

#[test]
fn addresses(rt: HostRuntime) -> Result<(), Fail> {
    let alloc = rt.alloc();
    for (p, q, meets) in ADDRESSES {
        let found = alias(&term(alloc, p)?, &term(alloc, q)?);
        assert!(rt; found == meets, "{p}, {q}");
    }
    Ok(())
}

#[test]
fn reads(rt: HostRuntime) -> Result<(), Fail> {
    let alloc = rt.alloc();
    let a = instr(alloc, "M[(fp + 4)] := v1")?;
    let read = forward(alloc, &a, &term(alloc, "M[v3]")?)?;
    assert!(rt; read.is_none(), "M[v3] after M[(fp + 4)] := v1 isn't known");
    Ok(())
}

/// What a pair comes to.
#[derive(Clone, Copy)]
enum Becomes {
    Two,
    Nothing,
    One(&'static str),
}

fn is_that(alloc: Global, joined: &Joined, becomes: Becomes) -> Result<bool, Fail> {
    match becomes {
        Two => Ok(matches!(joined, Joined::Not)),
        Nothing => Ok(matches!(joined, Joined::Empty)),
        One(text) => match joined {
            Joined::List(i) => says(alloc, i, text),
            _ => Ok(false),
        },
    }
}

/// Two instructions, the register that is live after them, and what they come to.
const PAIRS: [(&str, &str, Option<u32>, Becomes); 16] = [
    ("v3 := 1", "v4 := (v2 + v3)", Some(4), One("v4 := (v2 + 1)")),
    (
        "v1 := (v0 + 5)",
        "v2 := (v1 + -5)",
        Some(2),
        One("v2 := v0"),
    ),
    ("M[(fp + 4)] := v1", "v2 := M[v3]", Some(2), Two),
    (
        "M[(fp + 4)] := v1",
        "v2 := M[(fp + 5)]",
        Some(2),
        One("v2 := M[(fp + 5)] ; M[(fp + 4)] := v1"),
    ),
    (
        "M[(fp + 4)] := v1",
        "v2 := M[(fp + 4)]",
        Some(2),
        One("v2 := v1 ; M[(fp + 4)] := v1"),
    ),
    (
        "M[(fp + 4)] := v1",
        "M[(fp + 4)] := v2",
        None,
        One("M[(fp + 4)] := v2"),
    ),
    ("v0 := 3", "if v0 ? 3 eq goto L0", None, One("goto L0")),
    ("v0 := 3", "if v0 ? 3 ne goto L0", None, Nothing),
    ("M[v0] := v1", "M[v0] := v2", None, One("M[v0] := v2")),
    ("M[v0] := v1", "M[v2] := v3", None, Two),
    ("goto L0", "v0 := 1", Some(0), Two),
    ("v0 := 1", "call &s0 0", None, Two),
    (
        "cc := v0 ? 3",
        "if cc lt goto L0",
        None,
        One("if v0 ? 3 lt goto L0"),
    ),
    ("v1 := v0", "v0 := v1", Some(0), Nothing),
    ("v0 := 1", "v1 := 2", None, Nothing),
    // What the first reads, it reads before its own store.
    (
        "v1 := M[(fp + 4)] ; M[(fp + 4)] := v0",
        "v2 := (v1 + M[(fp + 5)])",
        Some(2),
        One("v2 := (M[(fp + 4)] + M[(fp + 5)]) ; M[(fp + 4)] := v0"),
    ),
];

#[test]
fn pairs(rt: HostRuntime) -> Result<(), Fail> {
    let alloc = rt.alloc();
    for (a, b, live, becomes) in PAIRS {
        let p = pair(alloc, a, b, live, false)?;
        let joined = together(alloc, &p)?;
        assert!(rt; is_that(alloc, &joined, becomes)?, "{a}, {b}");
    }
    Ok(())
}

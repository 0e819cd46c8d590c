//! Pairs of instructions beside what becomes of them on the machine `tiny`, worked out by hand.
ghost use Rattle.std.specs.Prelude.{◌≡◌, ◌<◌, ◌^◌, length, IfOk};
ghost use Rattle.po_model.specs.Combined.{combination, combination_of};
ghost use Rattle.po_model.specs.Pairs.{pair_of};

use self::Becomes::{Gone, One, Two};
use crate::texts::{machine, pair, says};
use po_mdread::TINY;
use po_model::{Machine, Outcome, Pair, Steps};
use po_slow::slow_pair;
use po_word::OutOfMemory;
use std::alloc::Global;
use std::marker::Brand;
use std::sync::ledger::{Blank, Ledger};
use std::test::Fail;

/// What becomes of a pair.
#[derive(Clone, Copy)]
pub(crate) enum Becomes {
    Two,
    Gone,
    One(&'static str),
}

fn is_that(alloc: Global, outcome: &Outcome, becomes: Becomes) -> Result<bool, Fail> {
    match becomes {
        Two => Ok(matches!(outcome, Outcome::Keep)),
        Gone => Ok(matches!(outcome, Outcome::Nothing)),
        One(text) => match outcome {
            Outcome::One(i) => says(alloc, i, text),
            _ => Ok(false),
        },
    }
}

/// Two instructions, the register that is live after them, whether `cc` is, and what becomes of them.
type Row = (&'static str, &'static str, Option<u32>, bool, Becomes);

const ROWS: [Row; 15] = [
    // a constant in the place of a register
    (
        "v3 := 1",
        "v4 := (v2 + v3)",
        Some(4),
        false,
        One("v4 := (v2 + 1)"),
    ),
    (
        "v3 := 0",
        "v4 := (v2 + v3)",
        Some(4),
        false,
        One("v4 := v2"),
    ),
    // no entry adds 200
    ("v3 := 200", "v4 := (v2 + v3)", Some(4), false, Two),
    (
        "v1 := (v0 + 5)",
        "v2 := (v1 + -5)",
        Some(2),
        false,
        One("v2 := v0"),
    ),
    // the read may meet the store
    ("M[(fp + 4)] := v1", "v2 := M[v3]", Some(2), false, Two),
    // it doesn't, and no entry has two transfers
    (
        "M[(fp + 4)] := v1",
        "v2 := M[(fp + 5)]",
        Some(2),
        false,
        Two,
    ),
    (
        "M[(fp + 4)] := v1",
        "v2 := M[(fp + 4)]",
        Some(2),
        false,
        Two,
    ),
    // the same address twice, and addresses that may differ
    (
        "M[(fp + 4)] := v1",
        "M[(fp + 4)] := v2",
        None,
        false,
        One("M[(fp + 4)] := v2"),
    ),
    (
        "M[v0] := v1",
        "M[v0] := v2",
        None,
        false,
        One("M[v0] := v2"),
    ),
    ("M[v0] := v1", "M[v2] := v3", None, false, Two),
    // a branch that is decided
    (
        "v0 := 3",
        "if v0 ? 3 eq goto L0",
        None,
        false,
        One("goto L0"),
    ),
    ("v0 := 3", "if v0 ? 3 ne goto L0", None, false, Gone),
    // control of the first
    ("goto L0", "v0 := 1", Some(0), false, Two),
    // an entry that clobbers cc, where cc is dead, and where it is live
    (
        "v1 := v0",
        "if v1 ? 3 eq goto L0",
        None,
        false,
        One("if v0 ? 3 eq goto L0"),
    ),
    ("v1 := v0", "if v1 ? 3 eq goto L0", None, true, Two),
];

/// The outcome of a pair, with its own count of steps.
fn counted<L: Ledger>(
    alloc: Global,
    m: &Machine,
    p: &Pair,
    ledger: Blank,
) -> Result<Outcome, OutOfMemory>
    requires entries { length m.now.entries < 2 ^ 32 }
    requires name { ledger.name ≡ L.name }
    requires parts { ledger.parts ≡ L.parts }
    requires some { 0 < ledger.parts }
    ensures { IfOk result (λ o. combination_of o ≡ combination m.now (pair_of p.now)) }
{
    let mut steps = Steps::<L>::new(ledger);
    slow_pair(alloc, m, p, &mut steps)
}

fn outcome(alloc: Global, m: &Machine, p: &Pair) -> Result<Outcome, OutOfMemory>
    requires { length m.now.entries < 2 ^ 32 }
    ensures { IfOk result (λ o. combination_of o ≡ combination m.now (pair_of p.now)) }
{
    counted::<Brand>(alloc, m, p, Blank::new(1))
}

#[test]
fn pairs(rt: HostRuntime) -> Result<(), Fail> {
    let alloc = rt.alloc();
    let m = machine(alloc, TINY)?;
    for (a, b, live, cc, becomes) in ROWS {
        let p = pair(alloc, a, b, live, cc)?;
        let outcome = outcome(alloc, &m, &p)?;
        assert!(rt; is_that(alloc, &outcome, becomes)?, "{a}, {b}");
    }
    Ok(())
}

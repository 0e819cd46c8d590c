//! Shapes, and what they come to: addresses that meet or don't, terms read through an instruction, two instructions
//! made one list, and the entry that fits. The holes are numbered from left to right.
ghost use Rattle.std.specs.Prelude.{◌<◌, ◌^◌, length};

use crate::texts::{machine, no_questions, says, shaped};
use po_model::{Machine, PReg, PTerm, PTransfer, Pattern};
use po_term::Alias::{self, Apart, Maybe, Same};
use po_term::Reg::{self, Rv, Virt};
use po_trec::{JoinedP, alias_p, forward_p, recognise_p, together_p};
use std::alloc::Global;
use std::test::Fail;

/// Two addresses, how they meet, and the questions.
const ADDRESSES: [(&str, &str, Alias, &str); 8] = [
    ("(fp + 4)", "(fp + 5)", Apart, "same(#0,#1) no"),
    ("(fp + 4)", "(fp + 4)", Same, "same(#0,#1) yes"),
    ("fp", "(fp + 4)", Apart, "zero(#0) no"),
    ("4", "(fp + 4)", Maybe, "-"),
    ("(v1 + 4)", "(v2 + 4)", Maybe, "-"),
    // bases with the same register: their constants first, and then the offsets
    (
        "((v1 << 2) + 4)",
        "((v1 << 2) + 8)",
        Apart,
        "same(#0,#2) yes, same(#1,#3) no",
    ),
    (
        "((v1 << 2) + 4)",
        "((v1 << 3) + 4)",
        Maybe,
        "same(#0,#2) no",
    ),
    ("(v1 << 2)", "(v1 << 2)", Same, "same(#0,#1) yes"),
];

/// The address that a transfer reads at.
fn address(t: Option<PTransfer>) -> Result<PTerm, Fail> {
    match t {
        Some(PTransfer::Set(_, PTerm::Mem(t))) => Ok(Box::into_inner(t)),
        _ => Err(Fail::from("no read")),
    }
}

fn meet_so(alloc: Global, p: &str, q: &str, meets: Alias, asked: &str) -> Result<bool, Fail> {
    let first = format!(in alloc; "rv := M[{p}]")?;
    let second = format!(in alloc; "rv := M[{q}]")?;
    let (mut s, v) = shaped(alloc, first.as_str(), second.as_str(), &[])?;
    let p = address(s.a.pop())?;
    let q = address(s.b.pop())?;
    let mut path = no_questions(alloc);
    let found = alias_p(alloc, &p, &q, &v, &mut path)?;
    let text = format!(in alloc; "ask {asked} => keep")?;
    Ok(found == meets && says(alloc, path, Pattern::Keep, text.as_str())?)
}

#[test]
fn addresses(rt: HostRuntime) -> Result<(), Fail> {
    let alloc = rt.alloc();
    for (p, q, meets, asked) in ADDRESSES {
        assert!(rt; meet_so(alloc, p, q, meets, asked)?, "{p}, {q}");
    }
    Ok(())
}

/// Two instructions, and the questions and what the second one's term is before the first: kept where it isn't known.
const READS: [(&str, &str, &str); 3] = [
    (
        "M[(fp + 4)] := v1",
        "rv := (M[(fp + 4)] + v2)",
        "ask zero(#1) no, same(#0,#1) yes => rv := (%0 + %1)",
    ),
    (
        "M[(fp + 4)] := v1",
        "rv := M[(fp + 5)]",
        "ask zero(#1) no, same(#0,#1) no => rv := M[(fp + #1)]",
    ),
    ("M[(fp + 4)] := v1", "rv := M[v3]", "ask - => keep"),
];

fn is_read(alloc: Global, a: &str, b: &str, text: &str) -> Result<bool, Fail> {
    let (mut s, v) = shaped(alloc, a, b, &[Rv])?;
    let t = match s.b.pop() {
        Some(PTransfer::Set(_, t)) => t,
        _ => return Err(Fail::from("no term")),
    };
    let mut path = no_questions(alloc);
    let result = match forward_p(alloc, &s.a, &t, &v, &mut path)? {
        Some(t) => {
            let mut xs = Vec::new(alloc);
            xs.push(PTransfer::Set(PReg::Fixed(Rv), t))?;
            Pattern::One(xs)
        }
        None => Pattern::Keep,
    };
    says(alloc, path, result, text)
}

#[test]
fn reads(rt: HostRuntime) -> Result<(), Fail> {
    let alloc = rt.alloc();
    for (a, b, text) in READS {
        assert!(rt; is_read(alloc, a, b, text)?, "{a}, {b}");
    }
    Ok(())
}

/// Two instructions, what is live after them, and the questions and the list: `keep` where they stay two.
const PAIRS: [(&str, &str, &[Reg], &str); 7] = [
    // two stores: each address is simplified, and then the two are compared
    (
        "M[(fp + 4)] := v1",
        "M[(fp + 4)] := v2",
        &[],
        "ask zero(#0) no, zero(#1) no, same(#0,#1) yes => M[(fp + #1)] := %1",
    ),
    (
        "M[(fp + 4)] := v1",
        "M[(fp + 5)] := v2",
        &[],
        "ask zero(#0) no, zero(#1) no, same(#0,#1) no => keep",
    ),
    // the store's value is read through the first instruction behind its address
    (
        "v1 := (v2 + 5)",
        "M[(fp + 4)] := (v1 + 6)",
        &[],
        "ask zero(#0) no, zero(#1) no, zero((#0 + #2)) no => M[(fp + #1)] := (%1 + {(#0 + #2)})",
    ),
    // a question that is met for each use of the constant is kept once
    (
        "v3 := 1",
        "v4 := ((v2 + v3) + (v1 + v3))",
        &[Virt(4)],
        "ask zero(#0) no, zero((#0 + #0)) no => %1 := ((%2 + %3) + {(#0 + #0)})",
    ),
    // one without a hole isn't kept: v1 is 0
    (
        "v1 := (v0 - v0)",
        "v2 := (v3 + v1)",
        &[Virt(2)],
        "ask - => %2 := %3",
    ),
    (
        "v0 := 3",
        "if v0 ? 3 ne goto L0",
        &[],
        "ask ne(#0,#1) no => nothing",
    ),
    ("v0 := 1", "v1 := 2", &[], "ask - => nothing"),
];

fn joint(joined: JoinedP) -> Pattern {
    match joined {
        JoinedP::Not => Pattern::Keep,
        JoinedP::Empty => Pattern::Nothing,
        JoinedP::List(xs) => Pattern::One(xs),
    }
}

fn come_to(alloc: Global, a: &str, b: &str, live: &[Reg], text: &str) -> Result<bool, Fail> {
    let (s, v) = shaped(alloc, a, b, live)?;
    let mut path = no_questions(alloc);
    let joined = together_p(alloc, &s, &v, &mut path)?;
    says(alloc, path, joint(joined), text)
}

#[test]
fn pairs(rt: HostRuntime) -> Result<(), Fail> {
    let alloc = rt.alloc();
    for (a, b, live, text) in PAIRS {
        assert!(rt; come_to(alloc, a, b, live, text)?, "{a}, {b}");
    }
    Ok(())
}

const MACHINE: &str = "\
machine five\n\
frame fp\n\
result rv\n\
args a0 a1 a2 a3\n\
regs r0\n\
insn M[(%0 + #1[-128,127])] := #2[0,15] => sti #2,#1(%0)\n\
insn %0 := (%1 + #2[-128,127]) clobber cc => addi %0,%1,#2\n\
insn M[(%0 + #1)] := #2 => stl #2,#1(%0)\n\
insn %0 := (%1 * (#2 * #2)) => square %0,%1,#2\n\
insn %0 := (%1 - (#2[0,3] * %1)) => less %0,%1,#2\n\
end\n";

/// An instruction, whether `cc` is live behind it, the entry that it fits, and the questions.
const ENTRIES: [(&str, bool, Option<u32>, &str); 10] = [
    (
        "M[(v1 + 4)] := 9",
        true,
        Some(0),
        "in(#0,-128,127) yes, in(#1,0,15) yes",
    ),
    // the first entry is passed over at its second constant, and at its first one
    (
        "M[(v1 + 4)] := 16",
        true,
        Some(2),
        "in(#0,-128,127) yes, in(#1,0,15) no",
    ),
    ("M[(v1 + 128)] := 9", true, Some(2), "in(#0,-128,127) no"),
    ("v2 := (v1 + -128)", false, Some(1), "in(#0,-128,127) yes"),
    ("v2 := (v1 + -129)", false, None, "in(#0,-128,127) no"),
    // an entry that clobbers cc isn't asked where cc is live
    ("v2 := (v1 + 4)", true, None, "-"),
    ("v2 := (v1 * (3 * 3))", true, Some(3), "same(#0,#1) yes"),
    ("v2 := (v1 * (3 * 4))", true, None, "same(#0,#1) no"),
    ("v2 := (v1 - (3 * v1))", true, Some(4), "in(#0,0,3) yes"),
    // %1 stands for two registers: nothing is asked
    ("v2 := (v1 - (3 * v3))", true, None, "-"),
];

fn is_recognised(
    alloc: Global,
    m: &Machine,
    text: &str,
    cc_live: bool,
    entry: Option<u32>,
    asked: &str,
) -> Result<bool, Fail>
    requires { length m.now.entries < 2 ^ 32 }
{
    let (s, v) = shaped(alloc, "rv := rv", text, &[])?;
    let mut path = no_questions(alloc);
    let found = recognise_p(alloc, m, &s.b, cc_live, &v, &mut path)?;
    let text = format!(in alloc; "ask {asked} => keep")?;
    Ok(found == entry && says(alloc, path, Pattern::Keep, text.as_str())?)
}

#[test]
fn entries(rt: HostRuntime) -> Result<(), Fail> {
    let alloc = rt.alloc();
    let m = machine(alloc, MACHINE)?;
    for (text, cc_live, entry, asked) in ENTRIES {
        assert!(rt;
            is_recognised(alloc, &m, text, cc_live, entry, asked)?,
            "{text}"
        );
    }
    Ok(())
}

//! Pairs, shapes and machines from their texts, and the text of what was asked.
ghost use Rattle.std.specs.Prelude.{IfOk};
ghost use Rattle.po_model.specs.Machines.{IsMachine};

use po_mdread::read_machine;
use po_model::{Live, Machine, PTransfer, Pair, Pattern, Rule, Shape, Values};
use po_rule::print_rule;
use po_skel::shape;
use po_term::{Cond, Instr, Label, Reg, Term, Transfer, well_formed};
use po_termtext::read_term;
use po_tsimp::Path;
use po_word::{OutOfMemory, Rel};
use std::alloc::Global;
use std::collections::BTreeSet;
use std::test::Fail;

fn term(alloc: Global, text: &str) -> Result<Term, Fail> {
    let term = read_term(alloc, text.as_bytes())?;
    Ok(term.ok_or("no term")?)
}

fn relation(name: &str) -> Result<Rel, Fail> {
    match name.as_bytes() {
        b"eq" => Ok(Rel::Eq),
        b"ne" => Ok(Rel::Ne),
        _ => Err(Fail::from("no relation")),
    }
}

/// `t ? u REL`, before ` goto L0`
fn branch(alloc: Global, text: &str) -> Result<Transfer, Fail> {
    let (compared, name) = text.rsplit_once(' ').ok_or("no branch")?;
    let (left, right) = compared.split_once(" ? ").ok_or("no comparison")?;
    let left = term(alloc, left)?;
    let right = term(alloc, right)?;
    Ok(Transfer::If(Cond::Two(left, right), relation(name)?, Label(0)))
}

/// `r := t`, `M[t] := u`
fn setting(alloc: Global, text: &str) -> Result<Transfer, Fail> {
    let (to, from) = text.split_once(" := ").ok_or("no transfer")?;
    let value = term(alloc, from)?;
    match term(alloc, to)? {
        Term::Reg(register) => Ok(Transfer::Set(register, value)),
        Term::Mem(address) => Ok(Transfer::Store(Box::into_inner(address), value)),
        _ => Err(Fail::from("no transfer")),
    }
}

/// The instruction of one transfer that a text is the printed text of.
fn instr(alloc: Global, text: &str) -> Result<Instr, Fail> {
    let transfer = match text.strip_suffix(" goto L0") {
        Some(text) => branch(alloc, text.strip_prefix("if ").ok_or("no branch")?)?,
        None => setting(alloc, text)?,
    };
    let mut xs = Vec::new(alloc);
    xs.push(transfer)?;
    Ok(Instr { xs })
}

/// A pair after which these registers are live.
pub(crate) fn pair(alloc: Global, a: &str, b: &str, live: &[Reg], cc: bool) -> Result<Pair, Fail> {
    let mut regs = BTreeSet::new(alloc);
    for r in live {
        regs.insert(*r)?;
    }
    let a = instr(alloc, a)?;
    let b = instr(alloc, b)?;
    Ok(Pair {
        a,
        b,
        live: Live { regs, cc },
    })
}

/// The shape of a pair, and what stands at its holes.
pub(crate) fn shaped(
    alloc: Global,
    a: &str,
    b: &str,
    live: &[Reg],
) -> Result<(Shape, Values), Fail> {
    let p = pair(alloc, a, b, live, false)?;
    if well_formed(&p.a) && well_formed(&p.b) {
        Ok(shape(alloc, &p)?)
    } else {
        Err(Fail::from("not well formed"))
    }
}

/// The machine that a description describes.
pub(crate) fn machine(alloc: Global, text: &str) -> Result<Machine, Fail>
    ensures { IfOk result IsMachine }
{
    if text.len() > 65536 {
        return Err(Fail::from("a shorter description"));
    }
    let (machine, _) = read_machine(alloc, text.as_bytes())?;
    Ok(machine)
}

pub(crate) fn no_questions(alloc: Global) -> Path {
    Path {
        asked: Vec::new(alloc),
    }
}

fn one(alloc: Global, t: PTransfer) -> Result<Vec<PTransfer>, OutOfMemory> {
    let mut xs = Vec::new(alloc);
    xs.push(t)?;
    Ok(xs)
}

/// Whether a path and a result have this text, from `ask` on.
pub(crate) fn says(alloc: Global, path: Path, becomes: Pattern, text: &str) -> Result<bool, Fail> {
    let rule = Rule {
        shape: Shape {
            a: one(alloc, PTransfer::Ret)?,
            b: one(alloc, PTransfer::Ret)?,
            live: Vec::new(alloc),
            cc: false,
        },
        asked: path.asked,
        result: becomes,
    };
    let text = format!(in alloc; "ret | ret live - {text}")?;
    Ok(print_rule(alloc, &rule)?.as_slice() == text.as_bytes())
}

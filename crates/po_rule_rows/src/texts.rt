//! Instructions and pairs from their texts.
use po_model::{Live, Pair, Shape, Values};
use po_skel::shape;
use po_term::{Cond, Instr, Label, Reg, Sym, Term, Transfer, well_formed};
use po_termtext::read_term;
use po_text::read_number;
use po_word::Rel;
use std::alloc::Global;
use std::collections::BTreeSet;
use std::test::Fail;

fn term(alloc: Global, text: &str) -> Result<Term, Fail> {
    let term = read_term(alloc, text.as_bytes())?;
    Ok(term.ok_or("no term")?)
}

fn number(text: &str) -> Result<u32, Fail> {
    match read_number(text.as_bytes()) {
        Some(number) => Ok(u32::try_from(number).map_err(|_| "no number")?),
        None => Err(Fail::from("no number")),
    }
}

fn relation(name: &str) -> Result<Rel, Fail> {
    match name.as_bytes() {
        b"eq" => Ok(Rel::Eq),
        b"ne" => Ok(Rel::Ne),
        b"lt" => Ok(Rel::Lt),
        b"le" => Ok(Rel::Le),
        b"gt" => Ok(Rel::Gt),
        b"ge" => Ok(Rel::Ge),
        b"ltu" => Ok(Rel::Ltu),
        b"geu" => Ok(Rel::Geu),
        _ => Err(Fail::from("no relation")),
    }
}

/// `t ? u`
fn compared(alloc: Global, text: &str) -> Result<(Term, Term), Fail> {
    let (left, right) = text.split_once(" ? ").ok_or("no comparison")?;
    let left = term(alloc, left)?;
    let right = term(alloc, right)?;
    Ok((left, right))
}

/// `cc REL goto Lk`, `t ? u REL goto Lk`
fn branch(alloc: Global, text: &str) -> Result<Transfer, Fail> {
    let (what, label) = text.split_once(" goto L").ok_or("no branch")?;
    let (what, name) = what.rsplit_once(' ').ok_or("no branch")?;
    let label = Label(number(label)?);
    let relation = relation(name)?;
    if what == "cc" {
        return Ok(Transfer::If(Cond::Cc, relation, label));
    }
    let (left, right) = compared(alloc, what)?;
    Ok(Transfer::If(Cond::Two(left, right), relation, label))
}

/// `k n`, behind `call &s`
fn call(text: &str) -> Result<Transfer, Fail> {
    let (symbol, count) = text.split_once(' ').ok_or("no call")?;
    let count = u8::try_from(number(count)?).map_err(|_| "no call")?;
    Ok(Transfer::Call(Sym(number(symbol)?), count))
}

/// `r := t`, `cc := t ? u`, `M[t] := u`
fn setting(alloc: Global, text: &str) -> Result<Transfer, Fail> {
    let (to, from) = text.split_once(" := ").ok_or("no transfer")?;
    if to == "cc" {
        let (left, right) = compared(alloc, from)?;
        return Ok(Transfer::Cc(left, right));
    }
    let value = term(alloc, from)?;
    match term(alloc, to)? {
        Term::Reg(register) => Ok(Transfer::Set(register, value)),
        Term::Mem(address) => Ok(Transfer::Store(Box::into_inner(address), value)),
        _ => Err(Fail::from("no transfer")),
    }
}

/// The transfer that a text is the printed text of.
fn transfer(alloc: Global, text: &str) -> Result<Transfer, Fail> {
    if text == "ret" {
        return Ok(Transfer::Ret);
    }
    if let Some(label) = text.strip_prefix("goto L") {
        return Ok(Transfer::Goto(Label(number(label)?)));
    }
    if let Some(rest) = text.strip_prefix("if ") {
        return branch(alloc, rest);
    }
    if let Some(rest) = text.strip_prefix("call &s") {
        return call(rest);
    }
    setting(alloc, text)
}

/// The instruction that a text is the printed text of.
pub(crate) fn instr(alloc: Global, text: &str) -> Result<Instr, Fail> {
    let mut xs = Vec::new(alloc);
    for part in text.split(" ; ") {
        xs.push(transfer(alloc, part)?)?;
    }
    Ok(Instr { xs })
}

/// A pair after which these registers are live.
pub(crate) fn pair(alloc: Global, a: &str, b: &str, live: &[Reg], cc: bool) -> Result<Pair, Fail> {
    let mut regs = BTreeSet::new(alloc);
    for r in live {
        regs.insert(*r)?;
    }
    let a = instr(alloc, a)?;
    let b = instr(alloc, b)?;
    Ok(Pair {
        a,
        b,
        live: Live { regs, cc },
    })
}

/// The shape of a pair of well-formed instructions, and what stands at its holes.
fn shaped(alloc: Global, p: &Pair) -> Result<(Shape, Values), Fail> {
    if well_formed(&p.a) && well_formed(&p.b) {
        Ok(shape(alloc, p)?)
    } else {
        Err(Fail::from("not well formed"))
    }
}

pub(crate) fn shape_of(alloc: Global, p: &Pair) -> Result<Shape, Fail> {
    let (shape, _) = shaped(alloc, p)?;
    Ok(shape)
}

pub(crate) fn values_of(alloc: Global, p: &Pair) -> Result<Values, Fail> {
    let (_, values) = shaped(alloc, p)?;
    Ok(values)
}

//! Parts of rules, written as values.
use self::Becomes::{Goto, Keep, Set, Store};
use self::Makes::{Copied, Number, WithConstant, WithRegister};
use self::Over::{At, Log2, Sum};
use po_model::{PReg, PTerm, PTransfer, Pattern};
use po_term::Reg::Fp;
use po_word::{Bin, CExpr, OutOfMemory, Question, Rel};
use std::alloc::Global;

/// An expression: `#k`, `(#j + #k)`, `log2(#k)`.
#[derive(Clone, Copy)]
pub(crate) enum Over {
    At(u16),
    Sum(u16, u16),
    Log2(u16),
}

/// A question.
#[derive(Clone, Copy)]
pub(crate) enum Asks {
    Zero(Over),
    One(Over),
    Pow2(Over),
    In(Over, i32, i32),
    Same(u16, u16),
    Eq(u16, u16),
}

/// What a register is set to: `%k`, a number, `(%j op %k)`, `(%j op e)`.
#[derive(Clone, Copy)]
pub(crate) enum Makes {
    Copied(u16),
    Number(u32),
    WithRegister(u16, Bin, u16),
    WithConstant(u16, Bin, Over),
}

/// A result. `Store(k, j)` is `M[(fp + #k)] := %j`.
#[derive(Clone, Copy)]
pub(crate) enum Becomes {
    Keep,
    Set(u16, Makes),
    Store(u16, u16),
    Goto,
}

pub(crate) fn expr(alloc: Global, e: Over) -> Result<CExpr, OutOfMemory> {
    match e {
        At(k) => Ok(CExpr::Hole(k)),
        Sum(j, k) => {
            let j = Box::new(alloc, CExpr::Hole(j))?;
            let k = Box::new(alloc, CExpr::Hole(k))?;
            Ok(CExpr::Bin(Bin::Add, j, k))
        }
        Log2(k) => {
            let k = Box::new(alloc, CExpr::Hole(k))?;
            Ok(CExpr::Log2(k))
        }
    }
}

pub(crate) fn question(alloc: Global, asks: Asks) -> Result<Question, OutOfMemory> {
    match asks {
        Asks::Zero(e) => Ok(Question::IsZero(expr(alloc, e)?)),
        Asks::One(e) => Ok(Question::IsOne(expr(alloc, e)?)),
        Asks::Pow2(e) => Ok(Question::IsPow2(expr(alloc, e)?)),
        Asks::In(e, lo, hi) => Ok(Question::InRange(expr(alloc, e)?, lo, hi)),
        Asks::Same(j, k) => Ok(Question::Equal(CExpr::Hole(j), CExpr::Hole(k))),
        Asks::Eq(j, k) => Ok(Question::Holds(Rel::Eq, CExpr::Hole(j), CExpr::Hole(k))),
    }
}

fn register(k: u16) -> PTerm {
    PTerm::Reg(PReg::Hole(k))
}

fn binary(alloc: Global, op: Bin, t: PTerm, u: PTerm) -> Result<PTerm, OutOfMemory> {
    let t = Box::new(alloc, t)?;
    let u = Box::new(alloc, u)?;
    Ok(PTerm::Bin(op, t, u))
}

fn term(alloc: Global, makes: Makes) -> Result<PTerm, OutOfMemory> {
    match makes {
        Copied(k) => Ok(register(k)),
        Number(n) => Ok(PTerm::Const(CExpr::Num(n))),
        WithRegister(j, op, k) => binary(alloc, op, register(j), register(k)),
        WithConstant(j, op, e) => {
            let e = PTerm::Const(expr(alloc, e)?);
            binary(alloc, op, register(j), e)
        }
    }
}

fn transfers(alloc: Global, t: PTransfer) -> Result<Pattern, OutOfMemory> {
    let mut xs = Vec::new(alloc);
    xs.push(t)?;
    Ok(Pattern::One(xs))
}

pub(crate) fn result(alloc: Global, becomes: Becomes) -> Result<Pattern, OutOfMemory> {
    match becomes {
        Keep => Ok(Pattern::Keep),
        Set(k, makes) => {
            let t = term(alloc, makes)?;
            transfers(alloc, PTransfer::Set(PReg::Hole(k), t))
        }
        Store(k, j) => {
            let offset = PTerm::Const(CExpr::Hole(k));
            let address = binary(alloc, Bin::Add, PTerm::Reg(PReg::Fixed(Fp)), offset)?;
            transfers(alloc, PTransfer::Store(address, register(j)))
        }
        Goto => transfers(alloc, PTransfer::Goto),
    }
}

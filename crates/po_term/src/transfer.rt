//! Transfers and instructions.

use crate::{Label, Reg, Sym, Term};
use po_word::Rel;

/// What a branch compares.
#[derive(Drop)]
pub enum Cond {
    /// The pair that `cc` holds.
    Cc,
    /// Two terms.
    Two(Term, Term),
}

/// One of the things that an instruction does at once (docs/LANGUAGE.md, "Transfers").
#[derive(Drop)]
pub enum Transfer {
    /// `r := t`
    Set(Reg, Term),
    /// `cc := t ? u`
    Cc(Term, Term),
    /// `M[t] := u`
    Store(Term, Term),
    /// `goto L`
    Goto(Label),
    /// `if cc rel goto L`, `if t ? u rel goto L`
    If(Cond, Rel, Label),
    /// `call s n`, with n arguments
    Call(Sym, u8),
    /// `ret`
    Ret,
}

/// A list of transfers that are done at once. A well-formed one has 1 to 4, in the order sets, cc, store, control.
#[derive(Drop)]
pub struct Instr {
    pub xs: Vec<Transfer>,
}

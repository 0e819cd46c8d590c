//! What a description of a machine says.
//!
//! Everything here is plain data in contracts: two descriptions are equal where their contents are.

use po_name::Name;
use po_term::Reg;
use po_word::{Bin, Rel, Un};
use sqlite_items::{Boxed, Items};

/// A description of a machine (docs/DESCRIPTION.md).
#[derive(Debug, Drop)]
pub struct Machine {
    /// The machine's own name.
    pub name: Name,
    /// The name of the register of the frame, `fp` in patterns.
    pub frame: Name,
    /// The name of the register of a routine's result, `rv` in patterns.
    pub result: Name,
    /// Four names.
    pub args: Items<Name>,
    /// 1 to 64 names, by the number of the machine register.
    pub regs: Items<Name>,
    /// At most 512 entries, in the order in which they are tried.
    pub entries: Items<Entry>,
}

/// An instruction of the machine: what it does, and how it is written.
#[derive(Debug, Drop)]
pub struct Entry {
    /// 1 to 4 transfers, in the order sets, cc, store, control.
    pub pattern: Items<PatTransfer>,
    /// Whether the instruction leaves nothing in `cc`.
    pub clobbers: bool,
    /// How the instruction is written (docs/DESCRIPTION.md, "Templates").
    pub template: Items<Piece>,
}

/// A register of a pattern.
#[derive(Clone, Copy, Debug, PartialEq, Eq)]
pub enum PatReg {
    /// `%k`, k from 0 to 9: any register.
    Any(u8),
    /// `fp`, `rv`, `arg0` to `arg3`: this register.
    Fixed(Reg),
}

/// The range of a constant: its signed view is from `lo` to `hi`, both included; `lo` is at most `hi`.
#[derive(Clone, Copy, Debug, PartialEq, Eq)]
pub struct Bounds {
    /// The least signed view, from -2147483648 on.
    pub lo: i32,
    /// The greatest signed view, up to 2147483647.
    pub hi: i32,
}

/// A term of a pattern.
#[derive(Debug, Drop)]
pub enum PatTerm {
    /// A register.
    Reg(PatReg),
    /// A number: this constant.
    Num(u32),
    /// `#k` or `#k[lo,hi]`, k from 0 to 9: any constant, or one whose signed view is from lo to hi.
    Const(u8, Option<Bounds>),
    /// `&k`, k from 0 to 9: the address of a symbol.
    Addr(u8),
    /// `M[t]`
    Mem(Boxed<PatTerm>),
    /// `neg(t)` or `not(t)`
    Un(Un, Boxed<PatTerm>),
    /// `(t op u)`
    Bin(Bin, Boxed<PatTerm>, Boxed<PatTerm>),
}

/// What a branch of a pattern compares.
#[derive(Debug, Drop)]
pub enum PatCond {
    /// `cc`
    Cc,
    /// `t ? u`
    Two(PatTerm, PatTerm),
}

/// A transfer of a pattern.
#[derive(Debug, Drop)]
pub enum PatTransfer {
    /// `r := t`
    Set(PatReg, PatTerm),
    /// `cc := t ? u`
    Cc(PatTerm, PatTerm),
    /// `M[t] := u`
    Store(PatTerm, PatTerm),
    /// `goto @k`
    Goto(u8),
    /// `if cc rel goto @k`, `if t ? u rel goto @k`
    If(PatCond, Rel, u8),
    /// `call &k`, which fits any number of arguments
    Call(u8),
    /// `ret`
    Ret,
}

/// A part of a template.
#[derive(Clone, Copy, Debug, PartialEq, Eq)]
pub enum Piece {
    /// A character from 32 to 126 that stands for itself.
    Byte(u8),
    /// `%k`
    Reg(u8),
    /// `#k`
    Num(u8),
    /// `@k`
    Label(u8),
    /// `&k`
    Sym(u8),
}

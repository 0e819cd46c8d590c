//! What is answered about an instruction that fits.

use po_term::{Label, Reg, Sym};

/// What an operand of an entry's pattern stands for.
#[derive(Clone, Copy, Debug, PartialEq, Eq)]
pub enum Operand {
    /// A register, for `%k`.
    Reg(Reg),
    /// A constant, for `#k`.
    Num(u32),
    /// A label, for `@k`.
    Label(Label),
    /// A symbol, for `&k`.
    Sym(Sym),
}

/// The entry that an instruction fits (docs/DESCRIPTION.md, "What fits").
#[derive(Drop)]
pub struct Fit {
    /// Its number in the description, counted from 0.
    pub entry: u32,
    /// Ten: what `%0` to `%9`, `#0` to `#9`, `&0` to `&9` or `@0` to `@9` stands for, and None at a digit that the
    /// pattern doesn't have.
    pub operands: Vec<Option<Operand>>,
}

//! Registers, symbols, labels and terms.

use po_word::{Bin, Un};

/// A register (docs/LANGUAGE.md, "Registers").
#[derive(Clone, Copy, Debug, PartialEq, Eq, PartialOrd, Ord)]
pub enum Reg {
    /// `v0`, `v1`, ..: a register before placement.
    Virt(u32),
    /// `fp`, the frame: never set.
    Fp,
    /// `rv`, the result.
    Rv,
    /// `arg0` to `arg3`, the arguments: 0 to 3 in a well-formed instruction.
    Arg(u8),
}

/// A symbol, by its number in the unit.
#[derive(Clone, Copy, Debug, PartialEq, Eq)]
pub struct Sym(pub u32);

/// A label, by its number in the unit.
#[derive(Clone, Copy, Debug, PartialEq, Eq)]
pub struct Label(pub u32);

/// A term: what a transfer computes (docs/LANGUAGE.md, "Terms").
#[derive(Drop)]
pub enum Term {
    /// A constant.
    Num(u32),
    /// A register.
    Reg(Reg),
    /// `&s`, the address of a symbol.
    Addr(Sym),
    /// `M[t]`, the word at an address.
    Mem(Box<Term>),
    /// `neg(t)` or `not(t)`.
    Un(Un, Box<Term>),
    /// `(t op u)`.
    Bin(Bin, Box<Term>, Box<Term>),
}

/// Whether two addresses meet (docs/OPTIMISER.md, "Aliasing").
#[derive(Clone, Copy, Debug, PartialEq, Eq)]
pub enum Alias {
    /// They are one address in every state.
    Same,
    /// They differ in every state.
    Apart,
    /// Neither is known.
    Maybe,
}

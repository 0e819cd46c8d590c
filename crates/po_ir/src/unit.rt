//! Units and their operations.

use po_name::Name;
use po_word::{Bin, Rel, Un};
use sqlite_items::Items;

/// An operation on the stack (docs/STACK.md, "Operations").
// ORDER: operations
#[derive(Debug, Drop)]
pub enum Op {
    /// `con N`: pushes a number.
    Con(u32),
    /// `adl N`: pushes the address of a place in the frame.
    Adl(u32),
    /// `adg NAME`: pushes the address of a symbol.
    Adg(Name),
    /// `lod`: pops an address, pushes what memory has there.
    Lod,
    /// `sto`: pops a value and then an address, writes the value there.
    Sto,
    /// `add` and its like: pops b and then a, pushes what the operator gives of a and b.
    Bin(Bin),
    /// `neg`, `not`: pops a, pushes what the operator gives of it.
    Un(Un),
    /// `dup`: pushes the top again.
    Dup,
    /// `pop`: pops the top.
    Pop,
    /// `lab NAME`: names this place.
    Lab(Name),
    /// `jmp NAME`: goes on at a label.
    Jmp(Name),
    /// `beq NAME` and its like: pops b and then a, goes on at a label where the relation holds between a and b.
    Br(Rel, Name),
    /// `arg K`: pops a value, which becomes the argument K of the next call; 0 to 3.
    Arg(u8),
    /// `call NAME n`: calls a function with n arguments, 0 to 4, and pushes its result.
    Call(Name, u8),
    /// `ret`: pops the result, leaves the unit.
    Ret,
}

/// A unit of stack code: its name and its operations, in order.
#[derive(Debug, Drop)]
pub struct Unit {
    pub name: Name,
    pub ops: Items<Op>,
}

/// A jump or branch of a unit: its label, and the line and column where that stands, counted from 1.
#[derive(Debug, Drop)]
pub struct Jump {
    pub line: u32,
    pub column: u32,
    pub label: Items<u8>,
}

/// What the first word of a line inside a unit says.
#[derive(Clone, Copy, Debug)]
pub enum Key {
    Con,
    Adl,
    Adg,
    Lod,
    Sto,
    Bin(Bin),
    Un(Un),
    Dup,
    Pop,
    Lab,
    Jmp,
    Br(Rel),
    Arg,
    Call,
    Ret,
}

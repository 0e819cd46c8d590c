//! Registers, symbols, labels and numbers as terms.

ghost use Rattle.std.specs.Prelude.{◌≡◌};
ghost use Rattle.po_word.specs.Words.{word_of};
ghost use Rattle.po_lines.specs.Faults.{Tells};
ghost use Rattle.po_pattern.specs.Rests.{rest_of, read_of};
ghost use Rattle.po_pattern.specs.Parts as parts;

use crate::cursor::{Cursor, Parsed};
use crate::numbers::number;
use crate::operands::{OperandKind, Operands};
use crate::places::{begins, behind, name_length};
use crate::ranges::operand;
use po_lines::LineFault;
use po_model::{PatReg, PatTerm};
use po_term::Reg;
use po_text::Kind;

/// A register: `%k`, or one of `fp`, `rv`, `arg0` to `arg3` (docs/DESCRIPTION.md, "Entries"). Anything else is Word
/// at its first byte; a digit of another kind is ListForm there.
#[tactic(auto, unfolding(crate::specs::Parts::register))]
pub fn register<'a>(cursor: Cursor<'a>, seen: Operands) -> Result<Parsed<'a, PatReg>, LineFault>
    ensures { Tells read_of result (parts.register (rest_of cursor.entry) seen) }
{
    if begins(cursor.bytes, b'%') {
        any_register(cursor, seen)
    } else {
        fixed_register(cursor, seen)
    }
}

/// `%k`
#[tactic(auto, unfolding(crate::specs::Parts::any_register))]
pub fn any_register<'a>(cursor: Cursor<'a>, seen: Operands) -> Result<Parsed<'a, PatReg>, LineFault>
    ensures { Tells read_of result (parts.any_register (rest_of cursor.entry) seen) }
{
    let digit = operand(OperandKind::Register, cursor, seen)?;
    Ok(Parsed {
        value: PatReg::Any(digit.value),
        rest: digit.rest,
        seen: digit.seen,
    })
}

/// `fp`, `rv`, `arg0` to `arg3`
#[tactic(auto, unfolding(crate::specs::Parts::fixed_register))]
pub fn fixed_register<'a>(
    cursor: Cursor<'a>,
    seen: Operands,
) -> Result<Parsed<'a, PatReg>, LineFault>
    ensures { Tells read_of result (parts.fixed_register (rest_of cursor.entry) seen) }
{
    let length = name_length(cursor.bytes);
    match fixed_of(&cursor.bytes[..length]) {
        None => Err(LineFault::at(cursor.column, Kind::Word)),
        Some(register) => Ok(Parsed {
            value: PatReg::Fixed(register),
            rest: behind(cursor, length),
            seen,
        }),
    }
}

/// The fixed register of this name.
fn fixed_of(name: &[u8]) -> Option<Reg>
    ensures { result ≡ parts.fixed_of name.now }
{
    match name {
        b"fp" => Some(Reg::Fp),
        b"rv" => Some(Reg::Rv),
        b"arg0" => Some(Reg::Arg(0)),
        b"arg1" => Some(Reg::Arg(1)),
        b"arg2" => Some(Reg::Arg(2)),
        b"arg3" => Some(Reg::Arg(3)),
        _ => None,
    }
}

/// A symbol `&k`, by its digit, from 0 to 9 (docs/DESCRIPTION.md, "Entries"). Anything else is Word at its first
/// byte; a digit of another kind is ListForm there.
#[tactic(auto, unfolding(crate::specs::Parts::symbol))]
pub fn symbol<'a>(cursor: Cursor<'a>, seen: Operands) -> Result<Parsed<'a, u8>, LineFault>
    ensures { Tells read_of result (parts.symbol (rest_of cursor.entry) seen) }
{
    operand(OperandKind::Symbol, cursor, seen)
}

/// A label `@k`, by its digit, from 0 to 9 (docs/DESCRIPTION.md, "Entries"). Anything else is Word at its first byte;
/// a digit of another kind is ListForm there.
#[tactic(auto, unfolding(crate::specs::Parts::label))]
pub fn label<'a>(cursor: Cursor<'a>, seen: Operands) -> Result<Parsed<'a, u8>, LineFault>
    ensures { Tells read_of result (parts.label (rest_of cursor.entry) seen) }
{
    operand(OperandKind::Label, cursor, seen)
}

/// `&k` in a term.
#[tactic(auto, unfolding(crate::specs::Parts::symbol_address))]
pub fn symbol_address<'a>(
    cursor: Cursor<'a>,
    seen: Operands,
) -> Result<Parsed<'a, PatTerm>, LineFault>
    ensures { Tells read_of result (parts.symbol_address (rest_of cursor.entry) seen) }
{
    let digit = operand(OperandKind::Symbol, cursor, seen)?;
    Ok(Parsed {
        value: PatTerm::Addr(digit.value),
        rest: digit.rest,
        seen: digit.seen,
    })
}

/// A number in a term: the constant modulo 2^32.
#[tactic(auto, unfolding(crate::specs::Parts::numeral))]
pub fn numeral<'a>(cursor: Cursor<'a>, seen: Operands) -> Result<Parsed<'a, PatTerm>, LineFault>
    ensures { Tells read_of result (parts.numeral (rest_of cursor.entry) seen) }
{
    let number = number(cursor, seen)?;
    Ok(Parsed {
        value: PatTerm::Num(machine_word(number.value)),
        rest: number.rest,
        seen: number.seen,
    })
}

/// The machine word of a number: the number modulo 2^32.
fn machine_word(number: i32) -> u32
    ensures { result ≡ word_of number }
{
    number.cast_unsigned()
}

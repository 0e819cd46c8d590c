//! One part of a term: what may stand where a term is wanted, and what may stand behind a whole part.

ghost use Rattle.std.specs.Prelude.{◌≡◌};
ghost use Rattle.po_lines.specs.Faults.{Gives, Tells};
ghost use Rattle.po_pattern.specs.Rests.{rest_of, read_of};
ghost use Rattle.po_pattern.specs.Terms as terms;

use crate::built::{binary_part, memory_part, unary_part};
use crate::cursor::{Cursor, Parsed};
use crate::leaf::{any_register, fixed_register, numeral, symbol_address};
use crate::operands::Operands;
use crate::part::{Frame, Part, Turn};
use crate::places::{begins, behind, is_digit_byte, mark, name_length, skip_blanks};
use crate::ranges::constant;
use po_lines::{LineError, LineFault};
use po_model::{PatReg, PatTerm};
use po_text::Kind;
use po_word::{Bin, Un};
use std::alloc::Global;

/// A part without parts of its own.
fn leaf(parsed: Parsed<PatTerm>) -> Parsed<Turn>
    ensures { read_of result ≡ terms.leaf (read_of parsed.entry) }
{
    Parsed {
        value: Turn::Whole(Some(Part {
            term: parsed.value,
            size: 1,
            depth: 1,
        })),
        rest: parsed.rest,
        seen: parsed.seen,
    }
}

/// A register as a term.
fn of_register(parsed: Parsed<PatReg>) -> Parsed<PatTerm>
    ensures { read_of result ≡ terms.of_register (read_of parsed.entry) }
{
    Parsed {
        value: PatTerm::Reg(parsed.value),
        rest: parsed.rest,
        seen: parsed.seen,
    }
}

/// A register, a constant, a symbol's address, a number, by its first byte.
#[tactic(auto, unfolding(crate::specs::Terms::marked_leaf))]
fn marked_leaf<'a>(
    byte: u8,
    cursor: Cursor<'a>,
    seen: Operands,
) -> Result<Parsed<'a, PatTerm>, LineFault>
    ensures { Tells read_of result (terms.marked_leaf byte (rest_of cursor.entry) seen) }
{
    match byte {
        b'%' => {
            let register = any_register(cursor, seen)?;
            Ok(of_register(register))
        }
        b'#' => constant(cursor, seen),
        b'&' => symbol_address(cursor, seen),
        _ => numeral(cursor, seen),
    }
}

/// `M`, `neg` and `not` begin a part.
fn opening(name: &[u8]) -> Option<Frame>
    ensures { result ≡ terms.opening name.now }
{
    match name {
        b"M" => Some(Frame::Memory),
        b"neg" => Some(Frame::Unary(Un::Neg)),
        b"not" => Some(Frame::Unary(Un::Not)),
        _ => None,
    }
}

/// The byte behind that beginning: `[` or `(`.
fn bracket(frame: &Frame) -> u8
    ensures { result ≡ terms.bracket frame.now }
{
    match frame {
        Frame::Memory => b'[',
        Frame::Unary(_) | Frame::Left | Frame::Right(_, _) => b'(',
    }
}

/// A part that begins with a name, or a register by its name.
#[tactic(auto, unfolding(crate::specs::Terms::named))]
fn named<'a>(cursor: Cursor<'a>, seen: Operands) -> Result<Parsed<'a, Turn>, LineFault>
    ensures { Tells read_of result (terms.named (rest_of cursor.entry) seen) }
{
    let length = name_length(cursor.bytes);
    match opening(&cursor.bytes[..length]) {
        None => {
            let register = fixed_register(cursor, seen)?;
            Ok(leaf(of_register(register)))
        }
        Some(frame) => {
            let rest = mark(skip_blanks(behind(cursor, length)), bracket(&frame))?;
            Ok(Parsed {
                value: Turn::Opens(frame),
                rest,
                seen,
            })
        }
    }
}

/// Whether the byte begins a part without parts of its own and without a name.
fn begins_leaf(byte: u8) -> bool
    ensures { result ≡ terms.begins_leaf byte }
{
    byte == b'%' || byte == b'#' || byte == b'&' || byte == b'-' || is_digit_byte(byte)
}

/// What may stand where a term is wanted.
#[tactic(auto, unfolding(crate::specs::Terms::wanted))]
pub fn wanted<'a>(cursor: Cursor<'a>, seen: Operands) -> Result<Parsed<'a, Turn>, LineFault>
    ensures { Tells read_of result (terms.wanted (rest_of cursor.entry) seen) }
{
    match cursor.bytes {
        [] => Err(LineFault::at(cursor.column, Kind::Word)),
        [first, ..] => {
            if *first == b'(' {
                Ok(Parsed {
                    value: Turn::Opens(Frame::Left),
                    rest: behind(cursor, 1),
                    seen,
                })
            } else if begins_leaf(*first) {
                let term = marked_leaf(*first, cursor, seen)?;
                Ok(leaf(term))
            } else {
                named(cursor, seen)
            }
        }
    }
}

/// The operator that stands here; of two that fit the longer one.
fn operator_of(bytes: &[u8]) -> Option<Bin>
    ensures { result ≡ terms.operator_of bytes.now }
{
    if bytes.starts_with(b">>>") {
        Some(Bin::Shr)
    } else if bytes.starts_with(b">>") {
        Some(Bin::Sar)
    } else if bytes.starts_with(b"<<") {
        Some(Bin::Shl)
    } else {
        short_operator_of(bytes)
    }
}

/// The operator of one byte that stands here.
fn short_operator_of(bytes: &[u8]) -> Option<Bin>
    ensures { result ≡ terms.short_operator_of bytes.now }
{
    match bytes {
        [b'+', ..] => Some(Bin::Add),
        [b'-', ..] => Some(Bin::Sub),
        [b'*', ..] => Some(Bin::Mul),
        [b'&', ..] => Some(Bin::And),
        [b'|', ..] => Some(Bin::Or),
        [b'^', ..] => Some(Bin::Xor),
        _ => None,
    }
}

/// How many bytes an operator has.
fn operator_length(op: Bin) -> usize
    ensures { result ≡ terms.operator_length op }
{
    match op {
        Bin::Shr => 3,
        Bin::Sar | Bin::Shl => 2,
        Bin::Add | Bin::Sub | Bin::Mul | Bin::And | Bin::Or | Bin::Xor => 1,
    }
}

/// The operator behind the left operand.
#[tactic(auto, unfolding(crate::specs::Terms::operator))]
fn operator<'a>(
    left: Option<Part>,
    cursor: Cursor<'a>,
    seen: Operands,
) -> Result<Parsed<'a, Turn>, LineFault>
    ensures { Tells read_of result (terms.operator left (rest_of cursor.entry) seen) }
{
    match operator_of(cursor.bytes) {
        None => Err(LineFault::at(cursor.column, Kind::Word)),
        Some(op) => Ok(Parsed {
            value: Turn::Opens(Frame::Right(op, left)),
            rest: behind(cursor, operator_length(op)),
            seen,
        }),
    }
}

/// The byte that ends a part, which is now this one.
#[tactic(auto, unfolding(crate::specs::Terms::closed))]
fn closed<'a>(
    byte: u8,
    part: Option<Part>,
    cursor: Cursor<'a>,
    seen: Operands,
) -> Result<Parsed<'a, Turn>, LineFault>
    ensures { Tells read_of result (terms.closed byte part (rest_of cursor.entry) seen) }
{
    let rest = mark(cursor, byte)?;
    Ok(Parsed {
        value: Turn::Whole(part),
        rest,
        seen,
    })
}

/// What may stand behind a whole part, by the innermost frame.
#[tactic(auto, unfolding(crate::specs::Terms::behind_whole))]
pub fn behind_whole<'a>(
    alloc: Global,
    frame: Frame,
    part: Option<Part>,
    cursor: Cursor<'a>,
    seen: Operands,
) -> Result<Parsed<'a, Turn>, LineError>
    ensures { Gives read_of result (terms.behind_whole frame part (rest_of cursor.entry) seen) }
{
    match frame {
        Frame::Memory => Ok(closed(b']', memory_part(alloc, part)?, cursor, seen)?),
        Frame::Unary(op) => Ok(closed(b')', unary_part(alloc, op, part)?, cursor, seen)?),
        Frame::Left => Ok(operator(part, cursor, seen)?),
        Frame::Right(op, left) => {
            let whole = binary_part(alloc, op, left, part)?;
            Ok(closed(b')', whole, cursor, seen)?)
        }
    }
}

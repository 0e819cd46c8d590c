//! Operands with their digits: `%k`, `#k` with its range, `&k`, `@k`.

ghost use Rattle.std.specs.Prelude.{◌≡◌, ◌≤◌, ◌<◌, length, IfOk, IfSome};
ghost use Rattle.po_lines.specs.Faults.{Tells};
ghost use Rattle.po_pattern.specs.Rests.{rest_of, read_of};
ghost use Rattle.po_pattern.specs.Parts as parts;

use crate::cursor::{Cursor, Parsed};
use crate::numbers::number;
use crate::operands::{OperandKind, Operands, is_new, kind_of, may_be, with_operand};
use crate::places::{begins, behind, is_digit_byte, mark, skip_blanks};
use po_lines::LineFault;
use po_model::{Bounds, PatTerm};
use po_text::Kind;

/// The byte that an operand of this kind begins with.
fn mark_of(kind: OperandKind) -> u8
    ensures { result ≡ parts.mark_of kind }
{
    match kind {
        OperandKind::Register => b'%',
        OperandKind::Constant => b'#',
        OperandKind::Symbol => b'&',
        OperandKind::Label => b'@',
    }
}

/// The digit right behind the first byte, which is this one.
fn digit_behind(byte: u8, bytes: &[u8]) -> Option<u8>
    ensures value { result ≡ parts.digit_behind byte bytes.now }
    ensures digit { IfSome result (λ k. k < 10) }
    ensures within { IfSome result (λ k. 2 ≤ length bytes.now) }
{
    match bytes {
        [first, digit, ..] => {
            if *first == byte && is_digit_byte(*digit) {
                Some(*digit - b'0')
            } else {
                None
            }
        }
        _ => None,
    }
}

/// The digit of an operand of this kind. A mark without its digit is Word, and a digit that has another kind already
/// is ListForm, each at the mark.
#[tactic(auto, unfolding(crate::specs::Parts::operand))]
pub fn operand<'a>(
    kind: OperandKind,
    cursor: Cursor<'a>,
    seen: Operands,
) -> Result<Parsed<'a, u8>, LineFault>
    ensures gives { Tells read_of result (parts.operand kind (rest_of cursor.entry) seen) }
    ensures digit { IfOk result (λ p. p.value < 10) }
{
    match digit_behind(mark_of(kind), cursor.bytes) {
        None => Err(LineFault::at(cursor.column, Kind::Word)),
        Some(digit) => {
            if may_be(kind, kind_of(&seen, digit)) {
                Ok(Parsed {
                    value: digit,
                    rest: behind(cursor, 2),
                    seen: with_operand(seen, kind, digit),
                })
            } else {
                Err(LineFault::at(cursor.column, Kind::ListForm))
            }
        }
    }
}

/// The lower end of a range isn't above the upper one; else Range at the column of the range.
fn in_order(column: u32, low: i32, high: i32) -> Result<(), LineFault>
    ensures { Tells (λ _. tt) result (parts.in_order column low high) }
{
    if low <= high {
        Ok(())
    } else {
        Err(LineFault::at(column, Kind::Range))
    }
}

/// A range `[lo,hi]`, its ends from -2147483648 to 2147483647. A lower end above the upper one is Range at the `[`,
/// decided before the `]` is looked at.
#[tactic(auto, unfolding(crate::specs::Parts::range))]
fn range<'a>(cursor: Cursor<'a>, seen: Operands) -> Result<Parsed<'a, Option<Bounds>>, LineFault>
    ensures { Tells read_of result (parts.range (rest_of cursor.entry) seen) }
{
    let opened = mark(cursor, b'[')?;
    let low = number(skip_blanks(opened), seen)?;
    let comma = mark(skip_blanks(low.rest), b',')?;
    let high = number(skip_blanks(comma), seen)?;
    in_order(cursor.column, low.value, high.value)?;
    let rest = mark(skip_blanks(high.rest), b']')?;
    Ok(Parsed {
        value: Some(Bounds {
            lo: low.value,
            hi: high.value,
        }),
        rest,
        seen,
    })
}

/// The range behind an operand `#k` that stands at this column, if it has one. At a later occurrence of the operand a
/// range is ListForm at the operand.
#[tactic(auto, unfolding(crate::specs::Parts::range_behind))]
fn range_behind<'a>(
    column: u32,
    new: bool,
    cursor: Cursor<'a>,
    seen: Operands,
) -> Result<Parsed<'a, Option<Bounds>>, LineFault>
    ensures { Tells read_of result (parts.range_behind column new (rest_of cursor.entry) seen) }
{
    let next = skip_blanks(cursor);
    if begins(next.bytes, b'[') {
        if new {
            range(next, seen)
        } else {
            Err(LineFault::at(column, Kind::ListForm))
        }
    } else {
        Ok(Parsed {
            value: None,
            rest: cursor,
            seen,
        })
    }
}

/// `#k` or `#k[lo,hi]`
#[tactic(auto, unfolding(crate::specs::Parts::constant))]
pub fn constant<'a>(cursor: Cursor<'a>, seen: Operands) -> Result<Parsed<'a, PatTerm>, LineFault>
    ensures { Tells read_of result (parts.constant (rest_of cursor.entry) seen) }
{
    let digit = operand(OperandKind::Constant, cursor, seen)?;
    let new = is_new(kind_of(&seen, digit.value));
    let range = range_behind(cursor.column, new, digit.rest, digit.seen)?;
    Ok(Parsed {
        value: PatTerm::Const(digit.value, range.value),
        rest: range.rest,
        seen: range.seen,
    })
}

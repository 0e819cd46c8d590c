//! The template of an entry: characters and operands, byte by byte. A mark (`%`, `#`, `@`, `&`) that has come waits
//! for the byte behind it, which makes it a character or an operand.

ghost use Rattle.std.specs.Prelude.{◌≡◌, ◌+◌, ◌≤◌, length};
ghost use Rattle.po_lines.specs.Faults.{Gives, Tells};
ghost use Rattle.po_pattern.specs.Rests.{rest_of};
ghost use Rattle.po_entry.specs.EntryText.{is_mark as is_mark_byte};
ghost use Rattle.po_entry.specs.Template as template;

use crate::begun::{Begun, Mark};
use crate::words::{after_word, says};
use po_lines::{LineError, LineFault, fault_at};
use po_model::Piece;
use po_pattern::{Cursor, OperandKind, Operands, is_digit_byte, mark, same_kind};
use po_text::Kind;
use sqlite_items::Items;
use std::alloc::Global;

/// `=>` and exactly one space; the place where the template begins.
#[tactic(auto, unfolding(crate::specs::Template::arrow))]
pub fn arrow(at: Cursor) -> Result<Cursor, LineFault>
    ensures { Tells rest_of result (template.arrow (rest_of at.entry)) }
{
    if !says(at, b"=>") {
        return Err(LineFault::at(at.column, Kind::Word));
    }
    mark(after_word(at), b' ')
}

/// Whether an operand begins with this byte.
fn is_mark(byte: u8) -> bool
    ensures { result ≡ is_mark_byte byte }
{
    matches!(byte, b'%' | b'#' | b'@' | b'&')
}

/// What an operand with this mark stands for.
fn kind_by(mark: u8) -> OperandKind
    ensures { result ≡ template.kind_by mark }
{
    match mark {
        b'%' => OperandKind::Register,
        b'#' => OperandKind::Constant,
        b'@' => OperandKind::Label,
        _ => OperandKind::Symbol,
    }
}

fn piece_by(kind: OperandKind, k: u8) -> Piece
    ensures { result ≡ template.piece_by kind k }
{
    match kind {
        OperandKind::Register => Piece::Reg(k),
        OperandKind::Constant => Piece::Num(k),
        OperandKind::Label => Piece::Label(k),
        OperandKind::Symbol => Piece::Sym(k),
    }
}

/// Whether the kind of a digit, if it has one, is this one.
fn is_seen(kind: OperandKind, known: Option<OperandKind>) -> bool
    ensures { result ≡ template.is_seen kind known }
{
    match known {
        None => false,
        Some(other) => same_kind(other, kind),
    }
}

/// A mark and the byte behind it.
fn marked(operands: &Operands, mark: Mark, byte: u8) -> Result<Piece, LineFault>
    ensures { Tells (λ p. p) result (template.marked operands.now mark byte) }
{
    if byte == mark.byte {
        return Ok(Piece::Byte(byte));
    }
    let kind = kind_by(mark.byte);
    if is_digit_byte(byte) && is_seen(kind, operands.kinds[(byte - b'0') as usize]) {
        return Ok(piece_by(kind, byte - b'0'));
    }
    Err(LineFault::at(mark.column, Kind::ListForm))
}

/// A character that stands for itself.
fn plain(column: u32, byte: u8) -> Result<Piece, LineFault>
    ensures { Tells (λ p. p) result (template.plain column byte) }
{
    if byte >= b' ' && byte <= b'~' {
        Ok(Piece::Byte(byte))
    } else {
        Err(LineFault::at(column, Kind::Word))
    }
}

/// These pieces and one more.
fn with_piece(pieces: Items<Piece>, piece: Piece) -> Result<Begun, LineError>
    ensures { Gives (λ s. s) result (Ok (template.with_piece pieces piece)) }
{
    let mut pieces = pieces;
    pieces.push(piece)?;
    Ok(Begun {
        pieces,
        waiting: None,
    })
}

/// One byte more, which stands at this column.
#[tactic(auto, unfolding(crate::specs::Template::template_step))]
fn take_byte(operands: &Operands, column: u32, begun: Begun, byte: u8) -> Result<Begun, LineError>
    ensures { Gives (λ s. s) result (template.template_step operands.now column begun byte) }
{
    let Begun { pieces, waiting } = begun;
    match waiting {
        None => {
            if is_mark(byte) {
                return Ok(Begun {
                    pieces,
                    waiting: Some(Mark { byte, column }),
                });
            }
            let piece = plain(column, byte)?;
            with_piece(pieces, piece)
        }
        Some(mark) => {
            let piece = marked(operands, mark, byte)?;
            with_piece(pieces, piece)
        }
    }
}

/// These bytes, of which the first stands at this column, one by one.
fn take_bytes(
    alloc: Global,
    operands: &Operands,
    first: u32,
    bytes: &[u8],
) -> Result<Begun, LineError>
    requires { first + length bytes.now ≤ 4097 }
    ensures { Gives (λ s. s) result (template.template_from operands.now first template.nothing_yet bytes.now) }
{
    let mut begun = Begun {
        pieces: Items::new(alloc),
        waiting: None,
    };
    let mut column = first;
    'bytes: for byte in bytes {
        begun = match take_byte(operands, column, begun, *byte) {
            Ok(next) => next,
            Err(error) => return Err(error),
        };
        column += 1;
    }
    Ok(begun)
}

/// The template that begins here and goes to the line's end.
#[tactic(auto, unfolding(crate::specs::Template::template_in))]
pub fn template(alloc: Global, operands: &Operands, at: Cursor) -> Result<Items<Piece>, LineError>
    ensures { Gives (λ ps. ps) result (template.template_in operands.now (rest_of at.entry)) }
{
    let begun = take_bytes(alloc, operands, at.column, at.bytes)?;
    match begun.waiting {
        None => Ok(begun.pieces),
        Some(mark) => Err(fault_at(mark.column, Kind::ListForm)),
    }
}

//! A law of the definition of a term, as the contract of an empty function.

ghost use Rattle.po_pattern.specs.Rests.{rest_of};
ghost use Rattle.po_pattern.specs.Whole.{EndsInTime};

use crate::cursor::Cursor;
use crate::operands::Operands;

/// A term is read to its end: the number of parts that its definition allows, one for each byte that is left, is never
/// what ends it.
pub fn term_ends(cursor: Cursor, seen: Operands)
    ensures { EndsInTime (rest_of cursor.entry) seen }
{}

//! The parts of an entry's line that stand inside its transfers: operands, registers, numbers and whole terms
//! (docs/DESCRIPTION.md, "Entries"). Each function reads one thing from a place of the line on, gives it with the
//! place behind it and the operands seen so far, or gives the first fault from left to right. It is proved equal to a
//! definition on lists; only want of memory is left open.
//!
//! `cursor` is a place of a line and what was read from there on; `places` goes on in a line; `operands` has the
//! operands seen so far; `numbers`, `ranges` and `leaf` read one part; `turns` says what may stand where a term is
//! wanted and behind a whole part; `whole` reads a whole term; `laws` says that it is read to its end.
//!
//! Its tests stand in `po_input_rows`.
#![tactic(auto)]

mod built;
mod cursor;
mod frames;
mod laws;
mod leaf;
mod numbers;
mod operands;
mod part;
mod places;
mod ranges;
mod reading;
mod turns;
mod whole;

pub use cursor::{Cursor, Parsed};
pub use laws::term_ends;
pub use leaf::{label, register, symbol};
pub use operands::{OperandKind, Operands, none_seen, same_kind};
pub use places::{behind, is_digit_byte, mark, name_length, skip_blanks, start};
pub use whole::{address, term};

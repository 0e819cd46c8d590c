//! Stack code: the units of a text. A text is read exactly, to its units or to its first fault; `docs/STACK.md` has
//! the language. A line's operation, what the operations so far say of the next one, and the text are proved equal to
//! definitions on lists, one behind the other.
//!
//! Its tests stand in `po_input_rows`.
#![tactic(auto)]

mod begun;
mod laws;
mod line;
mod open;
mod print;
mod read;
mod rules;
mod state;
mod unit;
mod words;

pub use laws::{printed_units_are_read, units_are_written};
pub use po_name::Name;
pub use print::print_unit;
pub use read::read_units;
pub use unit::{Op, Unit};

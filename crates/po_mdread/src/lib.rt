//! Descriptions of machines: a text is read exactly, to its machine and the place behind its `end`, or to its first
//! fault, and a machine is printed; `docs/DESCRIPTION.md` has the language. What a line says of the machine, behind
//! the lines before it, and the text are proved equal to definitions on lists.
//!
//! Its tests stand in `po_input_rows`.
#![tactic(auto)]

mod laws;
mod line;
mod names;
mod print;
mod read;
mod sofar;
mod tiny;

pub use laws::{printed_again, what_is_described};
pub use print::print_machine;
pub use read::read_machine;
pub use tiny::TINY;

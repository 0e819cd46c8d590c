//! The assembly of a placed unit (docs/DESCRIPTION.md, "Templates").
//!
//! `names` has the names of registers, labels and symbols, `templates` the lines of a machine's entries, `fill` these
//! lines with their operands, `lines` the lines of instructions and blocks, and `unit` the whole unit. Everything is
//! written at the end of one buffer, each byte once.
//!
//! Its tests stand in `po_code_rows`.
#![tactic(auto)]

mod fill;
mod lines;
mod names;
mod templates;
mod unit;

pub use templates::Templates;
pub use unit::{emit, emit_by};

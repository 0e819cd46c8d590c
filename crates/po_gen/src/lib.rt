//! Sample units are counted: what all passes make of them on a machine, and a line that tells it (docs/STACK.md,
//! "Sample units").
//!
//! `learning` puts the rules of pairs into a table, `passes` goes over a code by it, `tally` counts the instructions
//! of a unit, `summing` goes from unit to unit and makes the line.
//!
//! Its tests stand in `po_gen_rows`.
#![tactic(auto)]

mod learning;
mod passes;
mod summing;
mod tally;

pub use summing::summary;

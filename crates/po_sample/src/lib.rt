//! Sample units: stack code of any size from a number, for measures and for the mode `gen` (docs/STACK.md, "Sample
//! units"). A unit is made by itself from its number, so that many of them take the memory of one.
//!
//! `draws` is the generator, `statement` one statement, `unit` a unit, `laws` says that the language allows each.
//!
//! Its tests stand in `po_gen_rows`.
#![tactic(auto)]

mod draws;
mod laws;
mod statement;
mod unit;

pub use laws::samples_are_units;
pub use unit::sample_unit;

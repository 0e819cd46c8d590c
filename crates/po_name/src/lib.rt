//! Names: of machines, registers, units, labels and symbols.
//!
//! Its tests stand in `po_base_rows`.
#![tactic(auto)]

mod name;

pub use name::Name;

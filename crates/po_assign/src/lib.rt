//! The machine register of each virtual register of a unit's code (docs/LANGUAGE.md, "Placement").
//!
//! `reads` finds the last read of each register, `spans` the interval of each in order, and `place` gives each
//! interval the lowest free machine register, or finds the first crowded point. Instruction p of the code reads at
//! the point 2 * p and writes at the point 2 * p + 1. Each of the three goes once over the code or over the
//! intervals. `unit` does them one after another.
//! `laws` says that placed code does what the code does.
//!
//! Its tests stand in `po_code_rows`.
#![tactic(auto)]

mod answer;
mod laws;
mod numbered;
mod place;
mod reads;
mod spans;
mod unit;

pub use answer::{AssignRefusal, Placed};
pub use laws::placed_runs_alike;
pub use numbered::put_at;
pub use unit::{assign, never_shared};

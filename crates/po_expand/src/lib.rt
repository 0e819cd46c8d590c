//! The naive code of a unit, and whether a machine has an instruction for each one of a code (docs/LANGUAGE.md, "Naive
//! code").
//!
//! `names` numbers labels and symbols; `state` has what stands between two operations, and `blocks` cuts the code into
//! blocks; `step` says what each operation does; `unit` goes through a unit; `fitting` asks for the entry of each
//! instruction; `laws` says what holds of all naive code.
//!
//! Its tests stand in `po_code_rows`.
#![tactic(auto)]

mod blocks;
mod fitting;
mod laws;
mod names;
mod refusal;
mod state;
mod step;
mod unit;

pub use fitting::{check, check_by};
pub use laws::{cc_dead_at_starts, run_has_result};
pub use refusal::CheckRefusal;
pub use unit::expand;

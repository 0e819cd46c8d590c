//! The foreground: a block of a code is scanned, and each pair that is tried is first looked up in a list of rules
//! (docs/RULES.md, "A block by rules").
//!
//! `tries` tries one pair, `block` goes to the end of a block, and `report` says what was tried there.
#![tactic(auto)]

mod block;
mod report;
mod tries;

pub use block::compile_block;
pub use report::{BlockReport, Hit};

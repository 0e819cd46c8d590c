//! What a worker hands over of a unit: the hits of all its blocks, told by the rules that made them, each rule once
//! (docs/LEARNING.md, "A worker's brief").
//!
//! `tally` has hits by one rule, counted, and joins lists of them; `brief` makes the brief of a unit's work.
#![tactic(auto)]

mod brief;
mod tally;

pub use brief::{Brief, shorten};
pub use tally::{Tally, join};

//! A worker's unit: all passes over its code, each block by the rules that are published when it is scanned, and the
//! pairs that no rule was found for posted (docs/LEARNING.md, "A worker's unit").
//!
//! `copies` copies a pair; `sent` posts the misses of a block; `block` scans one, by the door's rules or without any;
//! `unit` goes over the whole code.
#![tactic(auto)]

mod block;
mod copies;
mod sent;
mod unit;

pub use copies::copy_pair;
pub use sent::{Sent, post_all};
pub use unit::{Work, work_unit};

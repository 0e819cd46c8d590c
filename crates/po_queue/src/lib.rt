//! A bounded queue between threads, of items of any type. Each thread has a pass, which knows what was put and taken
//! by it, so that with all passes together it is known that no item was lost or doubled (docs/LEARNING.md, "The
//! queue").
//!
//! `balance` has the rule of what the queue holds, `count` the rule of how many items were put, `pass` what one thread
//! does under both rules, and `posts` the queue. Its tests stand in `po_queue_rows`.
#![tactic(auto)]

mod balance;
mod count;
mod pass;
mod posts;
mod refusal;

pub use pass::Pass;
pub use posts::{Posts, open};
pub use refusal::{Full, OutOfMemory};

//! Workers and learners (docs/LEARNING.md, "Workers and learners"): what each thread of a run does, over the queue and
//! the store that all share.
//!
//! `taught` has the publisher as all share it under a lock, `way` is a worker's way to the published rules, and
//! `outbox` its post over the queue. `learners` has a learner's turns, and `rule` makes the rule of a pair for them.
//! `workers` has what a worker does with a unit, of which `copy` makes a copy. `seats` makes the seats of both, and
//! `threads` runs all threads to their end.
#![tactic(auto)]

mod copy;
mod learners;
mod outbox;
mod rule;
mod seats;
mod taught;
mod threads;
mod way;
mod workers;

pub use learners::{LearnerSeat, Learners};
pub use outbox::Outbox;
pub use rule::make_rule;
pub use seats::{learner_seats, worker_seats};
pub use taught::Taught;
pub use threads::{Ended, run_seats};
pub use way::{Inside, Way};
pub use workers::{WorkerSeat, Workers};

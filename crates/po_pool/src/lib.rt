//! Workers and learners, each in a thread where one can be started. Workers share out the units of a job by their
//! indexes; learners take turns of a study until the workers have ended and nothing is left (docs/LEARNING.md, "The
//! pool").
//!
//! `job` has the traits `Job` and `Study`; `gate` has what is told of the run's progress; `bell` wakes the learners;
//! `work` is one worker, `learn` one learner, and `run` starts them all. Its tests stand in `po_pool_rows`.
#![tactic(auto)]

mod bell;
mod gate;
mod job;
mod learn;
mod run;
mod work;

pub use bell::Bell;
pub use gate::{Gate, Open, Place};
pub use job::{Job, Study, Turn};
pub use run::{Ran, run_all};

//! Learning beside compiling, one event at a time: foregrounds that scan codes and look pairs up, a queue of misses,
//! and learners (docs/LEARNING.md). It runs on one thread, and what threads share is one event each.
//!
//! `state` has the state and makes the events; `event` names them. `fresh` makes foregrounds; `fore` has those events
//! of a foreground that need no scan, `tried` and `ended` those that do, over `scans`; `rules` puts learned rules
//! behind the others; `queue` puts pairs into queues; `laws` says what every list of events keeps.
//!
//! Its tests stand in `po_core_rows`.
#![tactic(auto)]

mod ended;
mod event;
mod fore;
mod fresh;
mod laws;
mod queue;
mod rules;
mod scans;
mod state;
mod tried;

pub use event::{Event, StepRefusal};
pub use laws::{events_keep_parts, events_of_new_cores_keep_parts};
pub use state::Core;

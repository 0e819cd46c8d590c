//! What the caller of a run does once all workers and learners have ended (docs/LEARNING.md, "Behind the join").
//!
//! `works` takes the briefs of all units together, `relook` looks each rule that made a hit up once more (`copies`
//! copies the pair of one that isn't found), `rest` learns what is left in the queue and gathers what was learned,
//! `rules` writes the rules of all pairs that were tried, and `counts` has the counts of a run. `finish` is all this,
//! one after another, and `opt` the whole mode, from opening the store and the queue on.
#![tactic(auto)]

mod copies;
mod counts;
mod finish;
mod opt;
mod relook;
mod rest;
mod rules;
mod works;

pub use counts::Counts;
pub use finish::{Opted, end_run};
pub use opt::opt_all;
pub use relook::{Relooked, look_again};
pub use rest::end_learning;
pub use rules::{Written, write_rules};
pub use works::{Told, tell};

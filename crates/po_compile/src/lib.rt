//! From a text to its assembly, in any mode, with a status for each way that this can end.
//!
//! `input` reads the text. In the modes that learn no rule `alone` takes one unit after the other from its operations
//! to its assembly, by what `target` makes once of the machine; `work` is what has become of the units so far. For
//! `opt` `units` takes all units through one step each, and `begun` has the naive codes of a text. `compile` makes
//! assembly of what a mode made, and goes the whole way for the modes that learn no rule; `streams` goes from a source
//! to a sink. `laws` says that a mode makes one code, that a text has one output, and that placed code runs as the
//! code. The definitions that these cite stand in specs/: `Modes`, `Rules` (what stands behind the assembly), `Input`
//! (what a text says), `Begun`, `Turns` (the units so far), `Output` (what it compiles to, and why it doesn't), `Runs`
//! (what the output does), `Statuses`.
#![tactic(auto)]

mod alone;
mod begun;
mod compile;
mod compiled;
mod input;
mod laws;
mod made;
mod mode;
mod refusal;
mod status;
mod streams;
mod target;
mod units;
mod work;

pub use begun::{Begun, begin};
pub use compile::finish;
pub use compiled::Compiled;
pub use laws::{modes_make_one_code, placed_slowed_runs_alike, texts_have_one_output};
pub use made::Made;
pub use mode::{Alone, Mode};
pub use po_lines::LIMIT;
pub use refusal::Refusal;
pub use status::Status;
pub use streams::{run, status_of};

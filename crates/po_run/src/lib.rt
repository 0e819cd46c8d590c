//! The program without its edge: the words, the top call, and what is told of its end.
//!
//! `run` is the top call, `serial` the one on one thread, `threads` makes the codes of the mode `opt`, `sampled`
//! writes the line on made units, and `notes` tells the end. The definitions that the top calls cite stand in specs/:
//! `Asked` (what is done for what the words ask for), `Sampled`, `Stats` and `Notes`, and those of `po_compile` and
//! `po_words`.
#![tactic(auto)]

mod notes;
mod run;
mod sampled;
mod serial;
mod threads;

pub use notes::tell;
pub use po_compile::{
    Status, modes_make_one_code, placed_slowed_runs_alike, texts_have_one_output,
};
pub use run::po_run;
pub use serial::po_serial;

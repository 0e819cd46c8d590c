//! What the words of the program ask for: a mode, with the numbers that it is given.
//!
//! The first word names the mode (`mode`). The whole list is then read by a command of `clap` for that mode
//! (`command`, `matching`), which takes the first word as the program's name; what the command takes, and the values
//! that it finds, are its written function of the words. The values are read here (`number`, `values`): 1 to 10
//! decimal digits, without a sign, within their bounds. `request` joins these three; `laws` says that words ask for
//! at most one request, and what some lists of words ask for.
//!
//! Its tests stand in `po_words_rows`. The words are those of docs/PROGRAM.md, "Words".
#![tactic(auto)]

mod command;
mod laws;
mod matching;
mod mode;
mod number;
mod request;
mod values;

pub use laws::{one_request, words_ask, words_ask_nothing};
pub use request::{Request, request_of};

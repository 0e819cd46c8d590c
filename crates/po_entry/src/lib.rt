//! The entries of a machine's description: an `insn` line read exactly to its entry or its first fault, and an entry
//! printed (docs/DESCRIPTION.md, "Entries").
//!
//! Reading goes from left to right: `words` has keywords and the ends of words, `transfer` one transfer, `list` the
//! list of them and what each decides behind those before it, `template` the bytes behind `=>`, `read` the whole
//! line. `print` writes an entry. `laws` and `writing` have the laws of its definitions.
//!
//! Its tests stand in `po_input_rows`.
#![tactic(auto)]

mod begun;
mod laws;
mod list;
mod pair;
mod print;
mod read;
mod template;
mod transfer;
mod words;
mod writing;

pub use laws::printed_entry_again;
pub use print::print_entry;
pub use read::read_entry;
pub use writing::{line_is_read_where_written, wrong_word_is_kept};

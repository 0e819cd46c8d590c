//! What every reader of a text stands on: its lines from a place on, the words of a line with their columns, names,
//! numbers and keywords, and the first fault of a line and of a text. A reader is proved equal to a definition on
//! lists that gives the value or the first fault; only want of memory is left open.
//!
//! Its tests stand in `po_base_rows`.
#![tactic(auto)]

mod fault;
mod few;
mod form;
mod limit;
mod line;
mod lines;
mod named;
mod names;
mod numbers;
mod split;
mod word;

pub use fault::{LineError, LineFault, fault_at, in_line, refused};
pub use few::first_words;
pub use form::{
    end_column, first_word, keyword, name_alone, no_more, rest_words, same_text, says_nothing,
    word_number_alone,
};
pub use limit::{LIMIT, past_limit};
pub use line::Line;
pub use lines::{Lines, ended_early};
pub use named::name;
pub use names::Names;
pub use numbers::{signed_number, small_number};
pub use split::line_words;
pub use word::Word;

//! The words of shapes: two shapes are one exactly where their words are (docs/RULES.md, "The words of a shape").
//!
//! `numbers` has the numbers of operators; `pair` writes the words of a pair's shape in one walk through the pair,
//! which finds what stands at its holes too; `written` writes those of a rule's shape; `laws` says that words tell
//! shapes.
#![tactic(auto)]

mod laws;
mod numbers;
mod pair;
mod written;

pub use laws::words_tell_shapes;
pub use pair::{Walked, walk};
pub use written::shape_words;

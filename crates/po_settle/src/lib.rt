//! The texts of the rules of all pairs that were tried, sorted by bytes, each once (docs/RULES.md, "The rules of a
//! run").
//!
//! `text` has the text of the rule of one pair, `distinct` sorts texts and leaves each once, `reports` goes through
//! what was tried, block by block, and `lines` writes the texts as they stand behind the assembly.
#![tactic(auto)]

mod distinct;
mod lines;
mod reports;
mod text;

pub use distinct::sorted_distinct;
pub use lines::rules_text;
pub use reports::settle;

//! A table of rules: a list, in which each rule stands once (docs/RULES.md, "Tables").
//!
//! `instance` asks whether a pair is an instance of a rule, and what the rule says of it; `search` looks through a
//! list of shared rules; `table` has the list beside the machine whose rules these are.
#![tactic(auto)]

mod instance;
mod search;
mod table;

pub use instance::{is_instance, outcome};
pub use search::{fitting, may_add};
pub use table::RuleTable;

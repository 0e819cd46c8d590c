//! The rule of a pair, and what is promised of it.
//!
//! `rule` makes it; `laws` says of the definition that the rule of a pair says what becomes of each of its instances,
//! and is the rule of each: each function there is empty, and its contract is the law.
#![tactic(auto)]

mod laws;
mod rule;

pub use laws::{one_rule, rules_are_canonical, rules_are_filled, rules_cover_their_shapes};
pub use rule::generalise;

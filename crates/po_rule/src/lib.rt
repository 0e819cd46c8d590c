//! Rules: what a learned rule is known to be, what is asked of a list of rules, and how rules are compared and printed
//! (docs/RULES.md).
//!
//! `learned` has a rule beside the machine that it is a rule of; `lookup` has the traits `Lookup`, of a list of rules,
//! and `Table`, of one that grows; `refusal` says why a rule isn't put into a table; `same` compares two rules, and
//! `print` writes one. `miss` has a pair that no rule was found for; the traits in `post` and `door` say where misses
//! go, and how a worker comes to the published rules.
#![tactic(auto)]

mod door;
mod learned;
mod lookup;
mod miss;
mod post;
mod print;
mod refusal;
mod same;

pub use door::Door;
pub use learned::Learned;
pub use lookup::{Lookup, Table};
pub use miss::Miss;
pub use post::{Post, Posted};
pub use print::print_rule;
pub use refusal::AddRefusal;
pub use same::same_rule;

//! The simplifier over terms with holes: the same table, whose constants are expressions. Each question that it meets
//! is answered by the words of the holes, and goes onto a path.
//!
//! `path` keeps the questions, `parts` puts terms together, `sums` has the constructors of `neg`, `not`, `+` and `-`,
//! `products` those of the other operators, `make` chooses among them, and `terms` simplifies a whole term.
#![tactic(auto)]

mod make;
mod parts;
mod path;
mod products;
mod sums;
mod terms;

pub use make::{binary_made, make_bin_p, make_un_p, unary_made};
pub use path::{Path, ask, is_zero};
pub use terms::{simplified, simplify_p};

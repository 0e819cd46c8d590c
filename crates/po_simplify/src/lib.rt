//! The simplifier: terms by one table of rows (docs/OPTIMISER.md, "The simplifier"), and the instructions that are
//! made of them.
//!
//! `parts` puts terms together, `sums` has the constructors of `neg`, `not`, `+` and `-`, `products` those of the
//! other operators,
//! `make` chooses among them, `terms` simplifies a whole term and `instr` an instruction. Each call gives what the
//! table says, by
//! `tree_of`, and keeps the value of the term in every state. A term is taken by value and its parts are moved, never
//! copied.
//!
//! Its tests stand in `po_base_rows`.
#![tactic(auto)]

mod instr;
mod make;
mod parts;
mod products;
mod sums;
mod terms;

pub use instr::{decide, simplify_instr};
pub use make::{make_bin, make_un};
pub use terms::simplify;

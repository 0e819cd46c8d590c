//! Terms, transfers and instructions.
//!
//! `term` has registers, symbols, labels and terms; `transfer` has what an instruction is made of. In contracts a
//! term is seen as its plain tree (`tree_of`), and a transfer as its plain move (`move_of`). `measure` has size and
//! depth, `same` equality,
//! `copy` the copies, and `form` says which instructions are well formed.
//!
//! Its tests stand in `po_base_rows`.
#![tactic(auto)]

mod copy;
mod form;
mod measure;
mod same;
mod term;
mod transfer;

pub use copy::{copy_instr, copy_term};
pub use form::well_formed;
pub use measure::{depth, size};
pub use same::same_term;
pub use term::{Alias, Label, Reg, Sym, Term};
pub use transfer::{Cond, Instr, Transfer};

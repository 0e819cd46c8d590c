//! The text of terms, transfers and instructions (docs/LANGUAGE.md, "Term text").
//!
//! `print` writes it (its `push_` functions are for other printers too), `read` reads terms back. A term has one
//! text, and a text is that of at most one term.
//!
//! Its tests stand in `po_base_rows`.
#![tactic(auto)]

mod print;
mod read;
mod refusal;
mod word;

pub use print::{
    print_instr, print_term, push, push_bin, push_constant, push_number, push_reg, push_rel,
    push_un,
};
pub use read::{one_term_a_text, read_term};

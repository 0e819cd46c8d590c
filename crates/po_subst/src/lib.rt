//! One instruction read through another: whether two addresses meet, what a term becomes that is read after an
//! instruction, and the one list of transfers that two instructions come to (docs/OPTIMISER.md, "Aliasing",
//! "Forwarding", "Combination").
//!
//! `addresses` compares addresses, `parts` finds what an instruction sets, compares and stores, `forwarding` reads a
//! term and `transfers` a whole transfer through an instruction, `choosing` says which transfers count by what is
//! live, `order` puts them in order, and `joining` makes one list of a pair; `simple` sees where the first instruction
//! is simplified already, and `least` where the list is too long. Each call gives what its definition in po_model
//! says, seen as plain moves.
//!
//! Its tests stand in `po_code_rows`.
#![tactic(auto)]

mod addresses;
mod choosing;
mod forwarding;
mod joining;
mod laws;
mod least;
mod order;
mod parts;
mod simple;
mod transfers;

pub use addresses::alias;
pub use choosing::live_registers;
pub use forwarding::forward;
pub use joining::{Joined, together, together_within};
pub use laws::{keeps_effect, keeps_form, makes_nothing_live};

//! Slow combination of shapes: what it gives, and which questions it asks.
//!
//! `addresses` compares addresses, `parts` finds what transfers set, compare and store, `copies` copies them, and
//! `forwarding` reads a term before an instruction. `transfers` simplifies transfers, `second` reads those of the
//! second instruction through the first, `choosing` says which of them count, `order` puts them in order, and
//! `joining` makes two instructions one list. `recognising` finds the entry that fits: `heads` compares what costs
//! nothing, `structure` goes through pattern and transfers together and writes down what stands at the places
//! (`found`), `agreement` says whether that agrees, and `questions` asks about its constants.
#![tactic(auto)]

mod addresses;
mod agreement;
mod choosing;
mod copies;
mod forwarding;
mod found;
mod heads;
mod joining;
mod lists;
mod order;
mod parts;
mod questions;
mod recognising;
mod second;
mod structure;
mod transfers;

pub use addresses::alias_p;
pub use forwarding::forward_p;
pub use joining::{JoinedP, combine_p, together_p};
pub use recognising::recognise_p;

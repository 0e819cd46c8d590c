//! Shapes of pairs: what a pair is like whatever its registers, symbols, constants and label are (docs/RULES.md).
//!
//! `walk` finds what stands at the holes of a pair. `numbering` puts holes in its place, and `binding` compares the
//! pair with a shape, both in one walk. `matching` compares a pair whose values are known, in place. `holes` finds
//! holes by the values, `skeleton` and `matched` have the calls over all of these, and `fill` puts values into holes.
//! `laws` says what holds of the definitions: each function there is empty, and its contract is the law. The single
//! steps of `walk` and `holes` are public, for walks in other crates.
//!
//! Its tests stand in `po_rule_rows`.
#![tactic(auto)]

mod binding;
mod fill;
mod holes;
mod laws;
mod matched;
mod matching;
mod numbering;
mod skeleton;
mod walk;

pub use fill::instantiate;
pub use holes::{SETTABLE, lives};
pub use laws::{
    commutes_with_renaming, has_one_label, puts_back, renaming_keeps_shape, same_values_same_pair,
    shapes_are_filled, shapes_stay, values_differ,
};
pub use matched::is_of_shape;
pub use skeleton::{bind, shape};
pub use walk::{find, nothing_met, pair_values, place_register, place_symbol};

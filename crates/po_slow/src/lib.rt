//! Slow combination: what becomes of two instructions on a machine (docs/OPTIMISER.md, "Combination"), and the scan
//! that tries the pairs of a code (docs/OPTIMISER.md, "The scan").
//!
//! `pair` answers for one pair: the two are joined (`po_subst`), and the joint list has to fit an entry of the
//! machine (`po_recog`). `live` says what is live of what instructions set; `block` goes on within a block, in the
//! block's own memory; `mark` says which pairs stayed; `ready` tries the pair that is ready there; `within` does both
//! in a block of a code; `state` goes from block to block and from pass to pass; `unit` makes all passes.
//!
//! Its tests stand in `po_code_rows`.
#![tactic(auto)]

mod block;
mod laws;
mod live;
mod mark;
mod pair;
mod ready;
mod state;
mod unit;
mod within;

pub use laws::{
    combination_keeps_effect, dead_leaves_no_trace, passes_keep_fit, passes_keep_form,
    passes_keep_runs, passes_make_nothing_live, passes_make_one_code,
};
pub use pair::{combine, combine_by, combine_two, slow_pair};
pub use state::{Ask, ScanState, scan_step};
pub use unit::{slow_unit, slow_unit_by};

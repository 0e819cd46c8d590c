//! Which entry of a machine an instruction fits (docs/DESCRIPTION.md, "What fits").
//!
//! `answer` has what is answered, and `index` tries the entries in order: an entry whose `head` is another is passed
//! over, and then `walk` goes through the pattern and the instruction together and fills the ten operands, one by one
//! in `slots`. It stops at the first part that doesn't fit. One walk says what the definition says in two steps: the
//! structure, and then the questions. `laws` has what is promised beside.
//!
//! Its tests stand in `po_code_rows`.
#![tactic(auto)]

mod answer;
mod head;
mod index;
mod laws;
mod slots;
mod walk;

pub use answer::{Fit, Operand};
pub use index::{Index, is_recognised_by, recognise, recognise_by, recognise_in};
pub use laws::{fits_while_cc_is_dead, fits_within_limits};

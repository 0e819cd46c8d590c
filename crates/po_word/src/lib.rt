//! Words of 32 bits: the operators and relations on them, constant expressions and questions about constants, and the
//! error for want of memory.
//!
//! `operator` has the operators and relations with what they give; `expression` has constant expressions with holes
//! and questions about constants; `evaluate` what they come to, and copies of expressions; `laws` says what the signed
//! view, a floor, the operators of bits and the place of the highest one bit are; `memory` has `OutOfMemory`, and
//! `push`, which answers with it.
//!
//! Its tests stand in `po_base_rows`.
#![tactic(auto)]

mod evaluate;
mod expression;
mod laws;
mod memory;
mod operator;

pub use evaluate::{answer, copy_cexpr, value};
pub use expression::{CExpr, Question};
pub use laws::{bit_by_bit, floor_is_below, log2_bounds, signed_view};
pub use memory::{OutOfMemory, push};
pub use operator::{Bin, Rel, Un, apply_bin, apply_un, holds};

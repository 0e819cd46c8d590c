//! Two terms of a transfer.

use po_model::PatTerm;

/// The terms of `t ? u`, or the address and the value of `M[t] := u`; both are within the limits of a term.
#[derive(Debug, Drop)]
pub struct Pair {
    pub left: PatTerm,
    pub right: PatTerm,
}

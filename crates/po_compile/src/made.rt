//! What a mode makes of naive codes.

use po_model::UnitCode;

/// What was made of the naive codes of all units.
#[derive(Drop)]
pub struct Made<T> {
    /// The codes that are placed, one for each.
    pub codes: Vec<UnitCode>,
    /// What stands behind their assembly: in `opt` the rules.
    pub rules: Vec<u8>,
    /// What is told of the work.
    pub told: T,
}

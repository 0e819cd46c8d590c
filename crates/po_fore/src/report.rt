//! What is told of the tries of a block.

use po_model::{Pair, Rule};
use std::sync::Arc;

/// A pair, and the rule that said what becomes of it (docs/RULES.md, "A block by rules").
#[derive(Drop)]
pub struct Hit {
    pub pair: Pair,
    pub rule: Arc<Rule>,
}

/// The tries of a block (docs/RULES.md, "A block by rules").
#[derive(Drop)]
pub struct BlockReport {
    /// The pairs for which a rule was there, in order.
    pub used: Vec<Hit>,
    /// Those for which none was, in order.
    pub misses: Vec<Pair>,
    /// How many pairs were tried.
    pub tried: u64,
}

//! What stands at the places of a pattern.

use po_model::{Bounds, PReg};
use po_word::CExpr;

/// What an operand stands for.
#[derive(Drop)]
pub enum Stands {
    /// A register.
    Register(PReg),
    /// A constant.
    Constant(CExpr),
    /// The symbol of a hole.
    Symbol(u16),
    /// The label.
    Label,
}

/// What stands at a place.
#[derive(Drop)]
pub enum Spot {
    /// At a number, this constant.
    Number(u32, CExpr),
    /// At an operand, which may have a range.
    Operand(u8, Option<Bounds>, Stands),
}

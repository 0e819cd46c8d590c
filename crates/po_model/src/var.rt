//! What may be live.

use po_term::Reg;

/// What may be live at a place: a register, or `cc` (docs/OPTIMISER.md, "Liveness").
#[derive(Clone, Copy, Debug, PartialEq, Eq)]
pub enum Var {
    /// A register.
    Reg(Reg),
    /// `cc`, which holds what was compared last.
    Cc,
}

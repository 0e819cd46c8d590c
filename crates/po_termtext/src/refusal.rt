//! Why a part of a text was not read.
ghost use Rattle.std.specs.Prelude.{◌≡◌};
ghost use Rattle.po_termtext.specs.declared.refusal.Refusal.TheVariants.{Memory};

use std::alloc::{AllocError, AllocFailed};

/// Why a part of a text was not read.
#[derive(Debug, Drop)]
pub enum Refusal {
    /// It is no printed term.
    NoTerm,
    /// Memory was refused.
    Memory,
}

impl From<AllocError> for Refusal {
    ghost from_gives = { λ _ e. e ≡ Memory };

    fn from(_: AllocError) -> Self {
        Refusal::Memory
    }
}

impl<T: Drop> From<AllocFailed<T>> for Refusal {
    ghost from_gives = { λ _ e. e ≡ Memory };

    fn from(_: AllocFailed<T>) -> Self {
        Refusal::Memory
    }
}

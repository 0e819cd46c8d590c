//! Why a text has no assembly.

ghost use Rattle.std.specs.Prelude.{◌≡◌};
ghost use Rattle.po_compile.specs.declared.refusal.Refusal.TheVariants.{OutOfMemory as Memory};

use po_text::Kind;
use po_word::OutOfMemory;

/// Why a text has no assembly. All numbers of units, blocks, instructions and points are counted from 0.
#[derive(Clone, Copy, Debug, PartialEq, Eq)]
pub enum Refusal {
    /// The first fault of the text.
    BadText { line: u32, col: u32, kind: Kind },
    /// The first instruction that no entry fits.
    Unrecognised { unit: u32, block: u32, index: u32 },
    /// The first point that lies in more intervals than there are registers, in the first such unit, and how many.
    TooFew { unit: u32, point: u32, needed: u32 },
    /// Memory was refused.
    OutOfMemory,
}

impl From<OutOfMemory> for Refusal {
    ghost from_gives = { λ _ refusal. refusal ≡ Memory };

    fn from(_: OutOfMemory) -> Self {
        Refusal::OutOfMemory
    }
}

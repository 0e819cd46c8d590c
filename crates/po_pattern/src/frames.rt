//! The frames that are open: a list whose last one is the innermost. Definitions have the innermost first.

ghost use Rattle.std.specs.Prelude.{◌≡◌, ◌∷◌, [], reverse, IfOk, MatchOption};
ghost use Rattle.po_pattern.specs.Terms as terms;

use crate::part::Frame;
use sqlite_items::Items;
use std::alloc::AllocError;

/// The frames with one more, inside the others.
#[tactic(auto, using(crate::proofs::InnermostFirst::reverse_next))]
pub fn with_frame(frames: Items<Frame>, frame: Frame) -> Result<Items<Frame>, AllocError>
    ensures { IfOk result (λ more. reverse more ≡ frame ∷ reverse frames) }
{
    let mut frames = frames;
    frames.push(frame)?;
    Ok(frames)
}

/// Takes the innermost frame.
#[tactic(auto, using(crate::proofs::InnermostFirst::reverse_next))]
pub fn pop_frame(frames: &mut Items<Frame>) -> Option<Frame>
    ensures { MatchOption result ((reverse frames.old ≡ []) × (reverse frames.new ≡ []))
        (λ frame. reverse frames.old ≡ frame ∷ reverse frames.new) }
{
    frames.pop()
}

/// Whether no frame is open.
#[tactic(auto, using(crate::proofs::InnermostFirst::none_reversed))]
pub fn none_open(frames: &Items<Frame>) -> bool
    ensures { result ≡ terms.none_open (reverse frames.now) }
{
    match frames.as_slice() {
        [] => true,
        _ => false,
    }
}

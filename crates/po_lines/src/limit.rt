//! How long a text may be.

ghost use Rattle.std.specs.Prelude.{◌≡◌, ◌-◌, ◌<◌, ◌^◌, length};
ghost use Rattle.po_lines.specs.Limit as limits;

use crate::fault::refused;
use po_text::{Kind, TextRefusal, place_behind};

/// How many bytes a text may have (docs/PROGRAM.md, "Limits").
pub const LIMIT: usize = 4194304;

/// The refusal of a text that has more bytes than a limit, which is below 2^32 - 1: TooMany, at the first byte past
/// it, before any line is looked at (docs/PROGRAM.md, "Limits").
pub fn past_limit(text: &[u8], limit: usize) -> TextRefusal
    requires longer { limit < length text.now }
    requires counted { limit < 2 ^ 32 - 1 }
    ensures { result ≡ TextRefusal.BadText (limits.past_limit limit text.now).line
        (limits.past_limit limit text.now).column Kind.TooMany }
{
    let (line, col) = place_behind(&text[..limit]);
    refused(line, col, Kind::TooMany)
}

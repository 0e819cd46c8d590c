//! What the words ask for.

ghost use Rattle.std.specs.Prelude.{map, string_bytes, IfOk, IfSome};
ghost use Rattle.po_words.specs.Finds.{Finds};
ghost use Rattle.po_words.specs.Requests.{AsksFor, IsInBounds};

use crate::matching::matches_for;
use crate::mode::mode_of;
use crate::values::request_in;
use po_word::OutOfMemory;
use std::alloc::Global;

/// What the words ask for (docs/PROGRAM.md, "Words").
// ORDER: modes
#[derive(Clone, Copy, Debug, PartialEq, Eq)]
pub enum Request {
    /// The naive code of the input.
    Naive,
    /// What all passes make of it.
    Slow,
    /// The same by rules that are learned on the way: with 1 to 16 workers, 0 to 8 learners, and a line of numbers
    /// where `stats` is set.
    Opt {
        workers: u32,
        learners: u32,
        stats: bool,
    },
    /// A line on `units` made units, 0 to 10,000, which any seed picks.
    Gen {
        seed: u32,
        units: u32,
    },
}

/// What the words ask for, without the program's own name; None where they ask for nothing. The first word names the
/// mode, the command of `clap` for that mode takes the whole list, and each value is 1 to 10 decimal digits within its
/// bounds (docs/PROGRAM.md, "Words").
///
/// # Errors
/// Memory was refused.
pub fn request_of(alloc: Global, words: &[String]) -> Result<Option<Request>, OutOfMemory>
    // Some(r): the words ask for r. None: there is no r that they ask for.
    ensures asks { IfOk result (Finds (AsksFor (map string_bytes words.now))) }
    ensures bounds { IfOk result (λ found. IfSome found IsInBounds) }
{
    let Some(mode) = mode_of(words) else {
        return Ok(None);
    };
    let Some(matches) = matches_for(alloc, mode, words)? else {
        return Ok(None);
    };
    Ok(request_in(mode, &matches))
}

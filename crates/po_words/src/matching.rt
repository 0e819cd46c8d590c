//! What `clap` finds in the words.

ghost use Rattle.std.specs.Prelude.{◌↔◌, ◌≢◌, map, string_bytes, IfOk, IsTrue};
ghost use Rattle.clap.specs.Words.{kind_of};
ghost use Rattle.po_words.specs.Commands.{command_for, Matches};

use crate::command::command_for;
use crate::mode::Mode;
use clap::error::ErrorKind;
use clap::{ArgMatches, Error};
use po_word::OutOfMemory;
use std::alloc::Global;

/// Whether the command refused the words, and didn't want memory.
fn is_refusal(error: &Error) -> bool
    ensures { IsTrue result ↔ (kind_of error.now ≢ ErrorKind.OutOfMemory) }
{
    error.kind() != ErrorKind::OutOfMemory
}

/// What the command of the mode finds in the words, where it takes them.
pub fn matches_for<'a>(
    alloc: Global,
    mode: Mode,
    words: &'a [String],
) -> Result<Option<ArgMatches<'a>>, OutOfMemory>
    ensures { IfOk result (Matches (command_for mode) (map string_bytes words.entry.now)) }
{
    let command = command_for(alloc, mode)?;
    match command.try_get_matches_from(words) {
        Ok(matches) => Ok(Some(matches)),
        Err(error) => {
            if is_refusal(&error) {
                Ok(None)
            } else {
                Err(OutOfMemory)
            }
        }
    }
}

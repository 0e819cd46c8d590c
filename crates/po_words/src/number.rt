//! The number that the value of an option is.

ghost use Rattle.std.specs.Prelude.{◌≡◌, option_map, pos};
ghost use Rattle.po_text.specs.Number.{natural_of};
ghost use Rattle.po_words.specs.Finds.{Finds};
ghost use Rattle.po_words.specs.Values.{IsNumber};

use po_text::read_number;

/// The number that 1 to 10 decimal digits are. Any other word is none; so is one with a sign.
fn natural(word: &str) -> Option<i64>
    ensures { result ≡ option_map pos (natural_of word.now) }
{
    match word.as_bytes() {
        [b'-', ..] => None,
        bytes => read_number(bytes),
    }
}

/// The number from `low` to `high` that a word is.
pub fn number_within(word: &str, low: u32, high: u32) -> Option<u32>
    ensures { Finds (IsNumber low high word.now) result }
{
    let number = u32::try_from(natural(word)?).ok()?;
    if low <= number && number <= high {
        Some(number)
    } else {
        None
    }
}

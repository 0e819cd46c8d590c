//! A word as a number within bounds. It is first asked whether the word is a number at all, and then for the bounds.

ghost use Rattle.std.specs.Prelude.{◌≡◌, ◌≤◌, ◌≤ℤ◌, pos, negsuc, IfOk};
ghost use Rattle.po_word.specs.Words.{word_of};
ghost use Rattle.po_lines.specs.Faults.{Tells};
ghost use Rattle.po_lines.specs.Leaves.{number_in, word_number_in, signed_number_in, small_number_in};
ghost use Rattle.po_lines.specs.Words.{seen};

use crate::fault::LineFault;
use crate::word::Word;
use po_text::{Kind, read_number};

/// The word as a number from `low` to `high`. A word that isn't an optional `-` and 1 to 10 digits is Word, and a
/// number outside the bounds is Number, each at the word's first byte (docs/LANGUAGE.md, "Numbers"). Takes no memory.
#[tactic(auto, unfolding(crate::specs::Leaves::number_in))]
pub fn number_between(word: &Word, low: i64, high: i64) -> Result<i64, LineFault>
    ensures gives { Tells (λ n. n) result (number_in low high (seen word.now)) }
    ensures within { IfOk result (λ n. (low ≤ℤ n) × (n ≤ℤ high)) }
{
    match read_number(word.bytes) {
        None => Err(LineFault::at(word.column, Kind::Word)),
        Some(number) => {
            if low <= number && number <= high {
                Ok(number)
            } else {
                Err(LineFault::at(word.column, Kind::Number))
            }
        }
    }
}

/// The word as a number from -2147483648 to 4294967295, taken modulo 2^32. A word that is no number is Word, and a
/// number outside the bounds is Number, each at the word's first byte (docs/LANGUAGE.md, "Numbers"). Takes no memory.
#[tactic(auto, unfolding(crate::specs::Leaves::word_number_in))]
pub fn word_number(word: &Word) -> Result<u32, LineFault>
    ensures { Tells (λ n. n) result (word_number_in (seen word.now)) }
{
    let number = number_between(word, -2147483648, 4294967295)?;
    Ok(machine_word(number))
}

/// The machine word of a number: the number modulo 2^32.
fn machine_word(number: i64) -> u32
    requires low { negsuc 2147483647 ≤ℤ number }
    requires high { number ≤ℤ pos 4294967295 }
    ensures { result ≡ word_of number }
{
    if number < 0 {
        (number + 4294967296) as u32
    } else {
        number as u32
    }
}

/// The word as a number from -2147483648 to 2147483647. A word that is no number is Word, and a number outside the
/// bounds is Number, each at the word's first byte (docs/LANGUAGE.md, "Numbers"). Takes no memory.
#[tactic(auto, unfolding(crate::specs::Leaves::signed_number_in))]
pub fn signed_number(word: &Word) -> Result<i32, LineFault>
    ensures { Tells (λ n. n) result (signed_number_in (seen word.now)) }
{
    let number = number_between(word, -2147483648, 2147483647)?;
    Ok(narrow(number))
}

/// The same number in 32 bits.
fn narrow(number: i64) -> i32
    requires low { negsuc 2147483647 ≤ℤ number }
    requires high { number ≤ℤ pos 2147483647 }
    ensures { result ≡ number }
{
    number as i32
}

/// The word as a number from 0 to `most`. A word that is no number is Word, and a number outside the bounds is Number,
/// each at the word's first byte (docs/LANGUAGE.md, "Numbers"). Takes no memory.
#[tactic(auto, unfolding(crate::specs::Leaves::small_number_in))]
pub fn small_number(word: &Word, most: u32) -> Result<u32, LineFault>
    ensures gives { Tells (λ n. n) result (small_number_in most (seen word.now)) }
    ensures within { IfOk result (λ n. n ≤ most) }
{
    let number = number_between(word, 0, i64::from(most))?;
    Ok(number as u32)
}

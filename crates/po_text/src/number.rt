//! A word read as a number: an optional minus sign and 1 to 10 decimal digits.

ghost use Rattle.std.specs.Prelude.{◌≡◌, ◌≤◌, ◌<◌, ◌^◌, length, IfSome, IsTrue};
ghost use Rattle.std.specs.Char.{is_ascii_digit};
ghost use Rattle.std.specs.List.{list_all};
ghost use Rattle.po_text.specs.Number.{digits_value, are_digits, natural_of, number_of};

/// The number that a word is: an optional `-` and 1 to 10 decimal digits. Any other word is none. Leading zeros add
/// nothing, and `-0` is 0 (docs/LANGUAGE.md, "Numbers"). Takes no memory.
pub fn read_number(word: &[u8]) -> Option<i64>
    ensures { result ≡ number_of word.now }
{
    match word {
        [] => None,
        [b'-', digits @ ..] => {
            let value = read_digits(digits)?;
            Some(-(value as i64))
        }
        _ => {
            let value = read_digits(word)?;
            Some(value as i64)
        }
    }
}

/// The number that is written without a sign.
fn read_digits(word: &[u8]) -> Option<u64>
    ensures value { result ≡ natural_of word.now }
    ensures bound { IfSome result (λ value. value < 10 ^ 10) }
{
    if are_decimal(word) {
        Some(value_of(word))
    } else {
        None
    }
}

/// Whether these are 1 to 10 decimal digits.
fn are_decimal(word: &[u8]) -> bool
    ensures { result ≡ are_digits word.now }
{
    1 <= word.len() && word.len() <= 10 && all_digits(word)
}

/// Whether each byte is a decimal digit.
fn all_digits(word: &[u8]) -> bool
    ensures { result ≡ list_all is_ascii_digit word.now }
{
    word.iter().all(|byte| byte.is_ascii_digit())
}

/// The value of at most 10 decimal digits.
fn value_of(digits: &[u8]) -> u64
    requires digits { IsTrue (list_all is_ascii_digit digits.now) }
    requires short { length digits.now ≤ 10 }
    ensures value { result ≡ digits_value digits.now }
    ensures bound { result < 10 ^ 10 }
{
    let mut value = 0;
    for digit in digits {
        value = value * 10 + (digit - b'0') as u64;
    }
    value
}

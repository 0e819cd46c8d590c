//! Words: what stands between blanks and brackets, and what one word alone is read as.
ghost use Rattle.std.specs.Prelude.{◌≡◌, ◌≤◌, length};
ghost use Rattle.std.specs.List.{list_all};
ghost use Rattle.std.specs.Option.{option_copied, option_map};
ghost use Rattle.po_term.specs.Terms.{tree_of};
ghost use Rattle.po_termtext.specs.Reading as reading;

use po_term::{Reg, Sym, Term};
use po_word::Bin;

/// A word, and the text behind it.
#[derive(Clone, Copy, Debug)]
pub struct Word<'a> {
    pub word: &'a [u8],
    pub rest: &'a [u8],
}

fn is_word_byte(b: u8) -> bool
    ensures { result ≡ reading.in_word b }
{
    !(b == b' ' || b == b')' || b == b']')
}

fn word_length(text: &[u8]) -> usize
    ensures exact { result ≡ length (reading.word_of text.now) }
    ensures within { result ≤ length text.now }
{
    text.iter().take_while(|b| is_word_byte(**b)).count()
}

/// The word at the front of a text. It may be empty.
pub fn first_word(text: &[u8]) -> Word<'_>
    ensures word { result.word.now ≡ reading.word_of text.now }
    ensures rest { result.rest.now ≡ reading.rest_of text.now }
{
    let (word, rest) = text.split_at(word_length(text));
    Word { word, rest }
}

/// What stands behind a mark at the front of a text.
pub fn behind<'a>(mark: &[u8], text: &'a [u8]) -> Option<&'a [u8]>
    ensures { option_copied result ≡ reading.behind mark.now text.now }
{
    text.strip_prefix(mark)
}

fn has_digits(word: &[u8]) -> bool
    ensures { result ≡ list_all reading.is_digit word.now }
{
    word.iter().all(|b| *b >= 48 && *b <= 57)
}

/// Whether there is a first digit, and it is no leading zero.
fn has_first_digit(digits: &[u8]) -> bool
    ensures { result ≡ reading.begins_well digits.now }
{
    match digits {
        [] => false,
        [_] => true,
        [first, ..] => *first != b'0',
    }
}

/// The number below 2^32 that a word is the decimal of.
#[tactic(auto, unfolding(crate::specs::Reading::number_in))]
pub fn number(word: &[u8]) -> Option<u32>
    ensures { result ≡ reading.number_in word.now }
{
    if !has_digits(word) || !has_first_digit(word) {
        return None;
    }
    let Ok(text) = str::from_utf8(word) else {
        return None;
    };
    match text.parse::<u32>() {
        Ok(n) => Some(n),
        Err(_) => None,
    }
}

fn positive(size: u32) -> Option<u32>
    ensures { result ≡ reading.positive_in size }
{
    if size < 2147483648 { Some(size) } else { None }
}

fn negative(size: u32) -> Option<u32>
    ensures { result ≡ reading.negative_in size }
{
    if size > 0 && size <= 2147483648 {
        Some(0u32.wrapping_sub(size))
    } else {
        None
    }
}

/// The constant whose signed view a word is the decimal of.
#[tactic(auto, unfolding(crate::specs::Reading::const_in))]
fn constant(word: &[u8]) -> Option<u32>
    ensures { result ≡ reading.const_in word.now }
{
    match word {
        [] => None,
        [b'-', digits @ ..] => negative(number(digits)?),
        _ => positive(number(word)?),
    }
}

/// A register that has no number, or one of the four arguments.
#[tactic(auto, unfolding(crate::specs::Reading::reg_named))]
fn register(word: &[u8]) -> Option<Reg>
    ensures { result ≡ reading.reg_named word.now }
{
    match word {
        b"fp" => Some(Reg::Fp),
        b"rv" => Some(Reg::Rv),
        b"arg0" => Some(Reg::Arg(0)),
        b"arg1" => Some(Reg::Arg(1)),
        b"arg2" => Some(Reg::Arg(2)),
        b"arg3" => Some(Reg::Arg(3)),
        _ => None,
    }
}

/// The operator of two words that a word is the sign of.
#[tactic(auto, unfolding(crate::specs::Reading::operator_in))]
pub fn operator(word: &[u8]) -> Option<Bin>
    ensures { result ≡ reading.operator_in word.now }
{
    match word {
        b"+" => Some(Bin::Add),
        b"-" => Some(Bin::Sub),
        b"*" => Some(Bin::Mul),
        b"&" => Some(Bin::And),
        b"|" => Some(Bin::Or),
        b"^" => Some(Bin::Xor),
        b"<<" => Some(Bin::Shl),
        b">>" => Some(Bin::Sar),
        b">>>" => Some(Bin::Shr),
        _ => None,
    }
}

fn virtual_register(word: &[u8]) -> Option<Term>
    ensures { option_map tree_of result ≡ reading.virt_in word.now }
{
    let n = number(behind(b"v", word)?)?;
    Some(Term::Reg(Reg::Virt(n)))
}

fn symbol(word: &[u8]) -> Option<Term>
    ensures { option_map tree_of result ≡ reading.symbol_in word.now }
{
    let n = number(behind(b"&s", word)?)?;
    Some(Term::Addr(Sym(n)))
}

/// A term of one word: a register, the address of a symbol, or a constant.
#[tactic(auto, unfolding(crate::specs::Reading::leaf_in))]
pub fn leaf(word: &[u8]) -> Option<Term>
    ensures { option_map tree_of result ≡ reading.leaf_in word.now }
{
    if let Some(r) = register(word) {
        return Some(Term::Reg(r));
    }
    if let Some(term) = virtual_register(word) {
        return Some(term);
    }
    if let Some(term) = symbol(word) {
        return Some(term);
    }
    match constant(word) {
        Some(c) => Some(Term::Num(c)),
        None => None,
    }
}

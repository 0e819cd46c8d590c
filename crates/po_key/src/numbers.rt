//! The numbers of bits, operators and relations.
ghost use Rattle.std.specs.Prelude.{◌≡◌};
ghost use Rattle.po_key.specs.ShapeWords.{bit_word, un_word, bin_word, rel_word};

use po_word::{Bin, Rel, Un};

/// The number of a bit.
pub fn bit_word(bit: bool) -> usize
    ensures { result ≡ bit_word bit }
{
    if bit { 1 } else { 0 }
}

/// The number of an operator of one word.
pub fn un_word(op: Un) -> usize
    ensures { result ≡ un_word op }
{
    match op {
        Un::Neg => 0,
        Un::Not => 1,
    }
}

/// The number of an operator of two words.
pub fn bin_word(op: Bin) -> usize
    ensures { result ≡ bin_word op }
{
    match op {
        Bin::Add => 0,
        Bin::Sub => 1,
        Bin::Mul => 2,
        Bin::And => 3,
        Bin::Or => 4,
        Bin::Xor => 5,
        Bin::Shl => 6,
        Bin::Sar => 7,
        Bin::Shr => 8,
    }
}

/// The number of a relation.
pub fn rel_word(rel: Rel) -> usize
    ensures { result ≡ rel_word rel }
{
    match rel {
        Rel::Eq => 0,
        Rel::Ne => 1,
        Rel::Lt => 2,
        Rel::Le => 3,
        Rel::Gt => 4,
        Rel::Ge => 5,
        Rel::Ltu => 6,
        Rel::Geu => 7,
    }
}

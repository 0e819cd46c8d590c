//! What the signed view, the shift to the right, the operators of bits and the place of the highest one bit mean, as
//! laws of the definitions: each function is empty, and its contract is the law.
ghost use Rattle.std.specs.Prelude.{◌≡◌, ◌+◌, ◌*◌, ◌^◌, ◌<◌, ◌≤◌, ◌&&◌, ◌||◌, not, pos, ◌+ℤ◌, ◌*ℤ◌, ◌<ℤ◌, ◌≤ℤ◌};
ghost use Rattle.po_word.specs.declared.operator.Un.TheVariants.{Not};
ghost use Rattle.po_word.specs.declared.operator.Bin.TheVariants.{And, Or, Xor};
ghost use Rattle.po_word.specs.Words.{signed, word_of, floor_over, un_value, bin_value};
ghost use Rattle.po_word.specs.Bits.{bit, exactly_one};
ghost use Rattle.po_word.specs.Exprs.{log2};

/// Two's complement: the signed view is the word itself below 2^31, and the word less 2^32 from there on.
pub fn signed_view(a: u32)
    ensures low { a < 2 ^ 31 → signed a ≡ pos a }
    ensures high { 2 ^ 31 ≤ a → (signed a +ℤ pos (2 ^ 32)) ≡ pos a }
    ensures back { word_of (signed a) ≡ a }
{}

/// A floor: m times it isn't above the number, and m times one more is.
pub fn floor_is_below(z: i64, m: u32)
    requires { 0 < m }
    ensures at_most { (pos m *ℤ floor_over z m) ≤ℤ z }
    ensures above { z <ℤ (pos m *ℤ (floor_over z m +ℤ pos 1)) }
{}

/// Bits: and, or and exclusive or go bit by bit, and not turns each of the 32 bits (docs/LANGUAGE.md, "Words").
pub fn bit_by_bit(a: u32, b: u32, i: u32)
    ensures and { bit (bin_value And a b) i ≡ (bit a i && bit b i) }
    ensures or { bit (bin_value Or a b) i ≡ (bit a i || bit b i) }
    ensures xor { bit (bin_value Xor a b) i ≡ exactly_one (bit a i) (bit b i) }
    ensures turned { i < 32 → bit (un_value Not a) i ≡ not (bit a i) }
{}

/// The place of the highest one bit: 2 to this place isn't above the word, 2 to the next is; and it is 0 of 0
/// (docs/RULES.md, "Questions").
pub fn log2_bounds(c: u32)
    ensures none { log2 0 ≡ 0 }
    ensures at_most { 0 < c → 2 ^ log2 c ≤ c }
    ensures above { c < 2 ^ (log2 c + 1) }
{}

//! The operators and relations on words, and what they give.
ghost use Rattle.std.specs.Prelude.{◌≡◌};
ghost use Rattle.po_word.specs.Words.{un_value, bin_value, rel_value};

/// An operator of one word (docs/LANGUAGE.md, "Words").
#[derive(Clone, Copy, Debug, PartialEq, Eq)]
pub enum Un {
    /// `neg(t)`: the word that gives 0 when it is added.
    Neg,
    /// `not(t)`: each bit turned.
    Not,
}

/// An operator of two words (docs/LANGUAGE.md, "Words").
#[derive(Clone, Copy, Debug, PartialEq, Eq)]
pub enum Bin {
    /// `+`
    Add,
    /// `-`
    Sub,
    /// `*`
    Mul,
    /// `&`
    And,
    /// `|`
    Or,
    /// `^`
    Xor,
    /// `<<`
    Shl,
    /// `>>`, of the signed view
    Sar,
    /// `>>>`, of the word as it is
    Shr,
}

/// A relation of two words (docs/LANGUAGE.md, "Words").
#[derive(Clone, Copy, Debug, PartialEq, Eq)]
pub enum Rel {
    /// `eq`
    Eq,
    /// `ne`
    Ne,
    /// `lt`, of the signed views
    Lt,
    /// `le`, of the signed views
    Le,
    /// `gt`, of the signed views
    Gt,
    /// `ge`, of the signed views
    Ge,
    /// `ltu`, of the words as they are
    Ltu,
    /// `geu`, of the words as they are
    Geu,
}

/// What an operator of one word gives, from 0 to 2^32 - 1.
pub fn apply_un(op: Un, a: u32) -> u32
    ensures { result ≡ un_value op a }
{
    match op {
        Un::Neg => 0u32.wrapping_sub(a),
        Un::Not => !a,
    }
}

/// What an operator of two words gives, from 0 to 2^32 - 1.
pub fn apply_bin(op: Bin, a: u32, b: u32) -> u32
    ensures { result ≡ bin_value op a b }
{
    match op {
        Bin::Add => a.wrapping_add(b),
        Bin::Sub => a.wrapping_sub(b),
        Bin::Mul => a.wrapping_mul(b),
        Bin::And => a & b,
        Bin::Or => a | b,
        Bin::Xor => a ^ b,
        Bin::Shl => a.wrapping_shl(b),
        Bin::Sar => a.cast_signed().wrapping_shr(b).cast_unsigned(),
        Bin::Shr => a.wrapping_shr(b),
    }
}

/// Whether a relation holds between two words.
pub fn holds(rel: Rel, a: u32, b: u32) -> bool
    ensures { result ≡ rel_value rel a b }
{
    match rel {
        Rel::Eq => a == b,
        Rel::Ne => a != b,
        Rel::Lt => a.cast_signed() < b.cast_signed(),
        Rel::Le => a.cast_signed() <= b.cast_signed(),
        Rel::Gt => a.cast_signed() > b.cast_signed(),
        Rel::Ge => a.cast_signed() >= b.cast_signed(),
        Rel::Ltu => a < b,
        Rel::Geu => a >= b,
    }
}

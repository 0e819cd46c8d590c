//! The operands of an entry that were seen so far.

ghost use Rattle.std.specs.Prelude.{◌≡◌, ◌<◌};
ghost use Rattle.po_pattern.specs.Seen as seen;

/// What an operand stands for: a register `%k`, a constant `#k`, a symbol `&k`, a label `@k`.
#[derive(Clone, Copy, Debug, PartialEq, Eq)]
pub enum OperandKind {
    /// `%k`
    Register,
    /// `#k` or `#k[lo,hi]`
    Constant,
    /// `&k`
    Symbol,
    /// `@k`
    Label,
}

/// The operands of an entry seen so far: the kind that each of the ten digits has, if it has one.
#[derive(Clone, Copy, Debug)]
pub struct Operands {
    pub kinds: [Option<OperandKind>; 10],
}

/// No operand is seen yet.
pub fn none_seen() -> Operands
    ensures { result ≡ seen.none_seen }
{
    Operands { kinds: [None; 10] }
}

/// The kind that the digit k, from 0 to 9, has, if it has one.
pub fn kind_of(operands: &Operands, k: u8) -> Option<OperandKind>
    requires { k < 10 }
    ensures { result ≡ seen.kind_of operands.now k }
{
    operands.kinds[k as usize]
}

/// The same with the operand of this kind and digit.
pub fn with_operand(operands: Operands, kind: OperandKind, k: u8) -> Operands
    requires { k < 10 }
    ensures { result ≡ seen.with_operand operands kind k }
{
    let mut operands = operands;
    operands.kinds[k as usize] = Some(kind);
    operands
}

/// Whether a digit that has this kind, if one, may have the kind `kind`.
pub fn may_be(kind: OperandKind, known: Option<OperandKind>) -> bool
    ensures { result ≡ seen.may_be kind known }
{
    match known {
        None => true,
        Some(other) => same_kind(other, kind),
    }
}

/// Whether two kinds are the same.
pub fn same_kind(kind: OperandKind, other: OperandKind) -> bool
    ensures { result ≡ seen.same_kind kind other }
{
    kind == other
}

/// Whether a digit has no kind yet.
pub fn is_new(known: Option<OperandKind>) -> bool
    ensures { result ≡ seen.is_new known }
{
    known.is_none()
}

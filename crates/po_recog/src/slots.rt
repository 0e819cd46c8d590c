//! The ten operands that are filled on the way through a pattern. At its first place an operand is written down, and a
//! later one is compared with it.
ghost use Rattle.std.specs.Prelude.{◌≡◌};
ghost use Rattle.po_word.specs.Exprs.{Within, is_so};
ghost use Rattle.po_recog.specs.Taken.{same_operand, lies_in, put, outcome};

use crate::Operand;
use po_model::Bounds;

/// Whether both are one operand.
fn same(a: Operand, b: Operand) -> bool
    ensures { result ≡ same_operand a b }
{
    match (a, b) {
        (Operand::Reg(r), Operand::Reg(q)) => r == q,
        (Operand::Num(c), Operand::Num(d)) => c == d,
        (Operand::Label(l), Operand::Label(m)) => l.0 == m.0,
        (Operand::Sym(s), Operand::Sym(t)) => s.0 == t.0,
        _ => false,
    }
}

/// Whether the signed view of a word is from lo to hi.
pub(crate) fn is_within(c: u32, lo: i32, hi: i32) -> bool
    ensures { result ≡ is_so (Within c lo hi) }
{
    let signed = c.cast_signed();
    lo <= signed && signed <= hi
}

/// Whether a constant lies in the range, where there is one.
fn is_in(range: Option<Bounds>, x: Operand) -> bool
    ensures { result ≡ lies_in range x }
{
    match (range, x) {
        (Some(range), Operand::Num(c)) => is_within(c, range.lo, range.hi),
        _ => true,
    }
}

/// Whether the operand at the digit k may be x: it lies in the range, if this is its first place, and else is what
/// stands there.
pub(crate) fn takes(slots: &mut [Option<Operand>], k: u8, range: Option<Bounds>, x: Operand) -> bool
    ensures { outcome result slots.new ≡ put k range x slots.old }
{
    let k = usize::from(k);
    if k >= slots.len() {
        return false;
    }
    match slots[k] {
        Some(y) => same(y, x),
        None => {
            let fits = is_in(range, x);
            if fits {
                slots[k] = Some(x);
            }
            fits
        }
    }
}

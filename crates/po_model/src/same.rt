//! Whether two machines say the same. It is asked before a rule enters a table, so it takes no memory.
ghost use Rattle.std.specs.Prelude.{◌≡◌, ◌↔◌, IsTrue};

use crate::{Entry, Machine, PatCond, PatTerm, PatTransfer, Piece};
use po_name::Name;

/// Whether two machines are the same by their content: names, registers and entries, in order (docs/DESCRIPTION.md).
/// It takes no memory, and recurses as deep as the terms of patterns are.
pub fn same_machine(m: &Machine, n: &Machine) -> bool
    ensures { IsTrue result ↔ (m.now ≡ n.now) }
{
    same_names(m, n) && same_all(m.entries.as_slice(), n.entries.as_slice())
}

fn same_names(m: &Machine, n: &Machine) -> bool
    ensures { IsTrue result ↔ ((m.now.name ≡ n.now.name) × (m.now.frame ≡ n.now.frame) × (m.now.result ≡ n.now.result)
        × (m.now.args ≡ n.now.args) × (m.now.regs ≡ n.now.regs)) }
{
    if !m.name.same(&n.name) {
        return false;
    }
    if !m.frame.same(&n.frame) {
        return false;
    }
    if !m.result.same(&n.result) {
        return false;
    }
    same_all(m.args.as_slice(), n.args.as_slice()) && same_all(m.regs.as_slice(), n.regs.as_slice())
}

/// What is compared by its content.
trait Same {
    fn same(&self, other: &Self) -> bool
        ensures { IsTrue result ↔ (self.now ≡ other.now) };
}

fn same_all<T: Same>(xs: &[T], ys: &[T]) -> bool
    ensures { IsTrue result ↔ (xs.now ≡ ys.now) }
{
    match xs {
        [] => ys.is_empty(),
        [x, more @ ..] => match ys {
            [] => false,
            [y, others @ ..] => x.same(y) && same_all(more, others),
        },
    }
}

impl Same for Name {
    fn same(&self, other: &Name) -> bool {
        self.bytes() == other.bytes()
    }
}

impl Same for Entry {
    fn same(&self, other: &Entry) -> bool {
        if self.clobbers != other.clobbers {
            return false;
        }
        same_all(self.pattern.as_slice(), other.pattern.as_slice())
            && same_all(self.template.as_slice(), other.template.as_slice())
    }
}

impl Same for Piece {
    fn same(&self, other: &Piece) -> bool {
        *self == *other
    }
}

impl Same for PatTerm {
    fn same(&self, other: &PatTerm) -> bool {
        match (self, other) {
            (PatTerm::Reg(r), PatTerm::Reg(q)) => *r == *q,
            (PatTerm::Num(c), PatTerm::Num(d)) => *c == *d,
            (PatTerm::Const(k, range), PatTerm::Const(j, other)) => *k == *j && *range == *other,
            (PatTerm::Addr(k), PatTerm::Addr(j)) => *k == *j,
            (PatTerm::Mem(t), PatTerm::Mem(u)) => t.get().same(u.get()),
            (PatTerm::Un(o, t), PatTerm::Un(p, u)) => *o == *p && t.get().same(u.get()),
            (PatTerm::Bin(o, t, v), PatTerm::Bin(p, u, w)) => {
                *o == *p && (t.get().same(u.get()) && v.get().same(w.get()))
            }
            _ => false,
        }
    }
}

impl Same for PatCond {
    fn same(&self, other: &PatCond) -> bool {
        match (self, other) {
            (PatCond::Cc, PatCond::Cc) => true,
            (PatCond::Two(t, u), PatCond::Two(v, w)) => t.same(v) && u.same(w),
            _ => false,
        }
    }
}

impl Same for PatTransfer {
    fn same(&self, other: &PatTransfer) -> bool {
        match (self, other) {
            (PatTransfer::Set(r, t), PatTransfer::Set(q, u)) => *r == *q && t.same(u),
            (PatTransfer::Cc(t, u), PatTransfer::Cc(v, w)) => t.same(v) && u.same(w),
            (PatTransfer::Store(t, u), PatTransfer::Store(v, w)) => t.same(v) && u.same(w),
            (PatTransfer::Goto(k), PatTransfer::Goto(j)) => *k == *j,
            (PatTransfer::If(c, r, k), PatTransfer::If(d, s, j)) => {
                *k == *j && (*r == *s && c.same(d))
            }
            (PatTransfer::Call(k), PatTransfer::Call(j)) => *k == *j,
            (PatTransfer::Ret, PatTransfer::Ret) => true,
            _ => false,
        }
    }
}

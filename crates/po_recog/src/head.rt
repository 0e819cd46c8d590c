//! The head of a list of transfers, whose number an index keeps of each entry: where two numbers differ, so do the
//! heads, and the entry doesn't fit.
ghost use Rattle.std.specs.Prelude.{◌≡◌, ◌<◌};
ghost use Rattle.po_term.specs.Terms.{tree_of};
ghost use Rattle.po_term.specs.Moves.{move_of, moves_of};
ghost use Rattle.po_model.specs.Patterns.{pattern_of, pat_move_of, pat_moves_of};
ghost use Rattle.po_recog.specs.Heads.{term_outer, term_inner, pattern_outer, pattern_inner};
ghost use Rattle.po_recog.specs.Heads.{move_head, pat_move_head, moves_head, pat_moves_head};
ghost use Rattle.po_model.specs.Operators.{un_place, bin_place, rel_place};
ghost use Rattle.po_recog.specs.Heads.{form_number, two_number, head_number};

use po_model::{PatCond, PatTerm, PatTransfer};
use po_term::{Cond, Term, Transfer};
use po_word::{Bin, Rel, Un};

/// The outermost form of a term.
#[derive(Clone, Copy, Debug, PartialEq, Eq)]
pub(crate) enum Form {
    Num,
    Reg,
    Addr,
    Mem,
    Un(Un),
    Bin(Bin),
}

/// What a list of transfers is told by: the kind of its one transfer, with the forms of its two terms. What a register
/// is set to has its own form, and that of what is read or of a second operand.
#[derive(Clone, Copy, Debug, PartialEq, Eq)]
pub(crate) enum Head {
    Nothing,
    Several,
    Set(Form, Form),
    Cc(Form, Form),
    Store(Form, Form),
    Goto,
    IfCc(Rel),
    IfTwo(Form, Form),
    Call,
    Ret,
}

fn un_place(o: Un) -> u8
    ensures place { result ≡ un_place o }
    ensures small { result < 2 }
{
    o as u8
}

fn bin_place(o: Bin) -> u8
    ensures place { result ≡ bin_place o }
    ensures small { result < 9 }
{
    o as u8
}

fn rel_place(r: Rel) -> u8
    ensures place { result ≡ rel_place r }
    ensures small { result < 8 }
{
    r as u8
}

fn form_number(f: Form) -> u32
    ensures number { result ≡ form_number f }
    ensures small { result < 16 }
{
    match f {
        Form::Num => 0,
        Form::Reg => 1,
        Form::Addr => 2,
        Form::Mem => 3,
        Form::Un(o) => 4 + u32::from(un_place(o)),
        Form::Bin(o) => 6 + u32::from(bin_place(o)),
    }
}

/// The number of this kind of transfers, with terms of these forms.
fn two_number(kind: u32, f: Form, g: Form) -> u32
    requires { kind < 5 }
    ensures number { result ≡ two_number kind f g }
    ensures small { result < 1280 }
{
    (kind * 16 + form_number(f)) * 16 + form_number(g)
}

/// The number of a head.
pub(crate) fn number_of(h: Head) -> u32
    ensures number { result ≡ head_number h }
    ensures small { result < 1280 }
{
    match h {
        Head::Nothing => 0,
        Head::Several => 1,
        Head::Goto => 2,
        Head::Call => 3,
        Head::Ret => 4,
        Head::IfCc(r) => 5 + u32::from(rel_place(r)),
        Head::Set(f, g) => two_number(1, f, g),
        Head::Cc(f, g) => two_number(2, f, g),
        Head::Store(f, g) => two_number(3, f, g),
        Head::IfTwo(f, g) => two_number(4, f, g),
    }
}

fn outer(t: &Term) -> Form
    ensures { result ≡ term_outer (tree_of t.now) }
{
    match t {
        Term::Num(_) => Form::Num,
        Term::Reg(_) => Form::Reg,
        Term::Addr(_) => Form::Addr,
        Term::Mem(_) => Form::Mem,
        Term::Un(o, _) => Form::Un(*o),
        Term::Bin(o, _, _) => Form::Bin(*o),
    }
}

fn inner(t: &Term) -> Form
    ensures { result ≡ term_inner (tree_of t.now) }
{
    match t {
        Term::Num(_) => Form::Num,
        Term::Reg(_) => Form::Reg,
        Term::Addr(_) => Form::Addr,
        Term::Mem(t) => outer(t),
        Term::Un(o, _) => Form::Un(*o),
        Term::Bin(_, _, u) => outer(u),
    }
}

fn pattern_outer(p: &PatTerm) -> Form
    ensures { result ≡ pattern_outer (pattern_of p.now) }
{
    match p {
        PatTerm::Num(_) => Form::Num,
        PatTerm::Const(_, _) => Form::Num,
        PatTerm::Reg(_) => Form::Reg,
        PatTerm::Addr(_) => Form::Addr,
        PatTerm::Mem(_) => Form::Mem,
        PatTerm::Un(o, _) => Form::Un(*o),
        PatTerm::Bin(o, _, _) => Form::Bin(*o),
    }
}

fn pattern_inner(p: &PatTerm) -> Form
    ensures { result ≡ pattern_inner (pattern_of p.now) }
{
    match p {
        PatTerm::Num(_) => Form::Num,
        PatTerm::Const(_, _) => Form::Num,
        PatTerm::Reg(_) => Form::Reg,
        PatTerm::Addr(_) => Form::Addr,
        PatTerm::Mem(p) => pattern_outer(p.get()),
        PatTerm::Un(o, _) => Form::Un(*o),
        PatTerm::Bin(_, _, q) => pattern_outer(q.get()),
    }
}

fn transfer_head(x: &Transfer) -> Head
    ensures { result ≡ move_head (move_of x.now) }
{
    match x {
        Transfer::Set(_, t) => Head::Set(outer(t), inner(t)),
        Transfer::Cc(t, u) => Head::Cc(outer(t), outer(u)),
        Transfer::Store(t, u) => Head::Store(outer(t), outer(u)),
        Transfer::Goto(_) => Head::Goto,
        Transfer::If(Cond::Cc, r, _) => Head::IfCc(*r),
        Transfer::If(Cond::Two(t, u), _, _) => Head::IfTwo(outer(t), outer(u)),
        Transfer::Call(_, _) => Head::Call,
        Transfer::Ret => Head::Ret,
    }
}

fn pattern_head(p: &PatTransfer) -> Head
    ensures { result ≡ pat_move_head (pat_move_of p.now) }
{
    match p {
        PatTransfer::Set(_, p) => Head::Set(pattern_outer(p), pattern_inner(p)),
        PatTransfer::Cc(p, q) => Head::Cc(pattern_outer(p), pattern_outer(q)),
        PatTransfer::Store(p, q) => Head::Store(pattern_outer(p), pattern_outer(q)),
        PatTransfer::Goto(_) => Head::Goto,
        PatTransfer::If(PatCond::Cc, r, _) => Head::IfCc(*r),
        PatTransfer::If(PatCond::Two(p, q), _, _) => Head::IfTwo(
            pattern_outer(p),
            pattern_outer(q),
        ),
        PatTransfer::Call(_) => Head::Call,
        PatTransfer::Ret => Head::Ret,
    }
}

/// The head of a list of transfers.
pub(crate) fn head_of(xs: &[Transfer]) -> Head
    ensures { result ≡ moves_head (moves_of xs.now) }
{
    match xs {
        [] => Head::Nothing,
        [x] => transfer_head(x),
        _ => Head::Several,
    }
}

/// The head of a pattern.
pub(crate) fn head_of_pattern(ps: &[PatTransfer]) -> Head
    ensures { result ≡ pat_moves_head (pat_moves_of ps.now) }
{
    match ps {
        [] => Head::Nothing,
        [p] => pattern_head(p),
        _ => Head::Several,
    }
}

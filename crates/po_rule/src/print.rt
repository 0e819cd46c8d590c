//! Printing: each `push_` function adds the text of one thing at the end of what was printed so far.
ghost use Rattle.std.specs.Prelude.{◌≡◌, ◌++◌, map, codes, IfOk, OnOk};
ghost use Rattle.std.specs.List.{flat_map};
ghost use Rattle.std.specs.Fmt.{decimal, signed_decimal};
ghost use Rattle.po_word.specs.Views.{expr_of, ask_of};
ghost use Rattle.po_model.specs.Holed.{hole_tree_of, hole_branch_of, hole_move_of, hole_moves_of, result_of};
ghost use Rattle.po_model.specs.Holed.{asked_of, answered_of, rule_of};
ghost use Rattle.po_model.specs.RuleText.{expr_text, hole_const_text, hole_reg_text, hole_symbol_text};
ghost use Rattle.po_model.specs.RuleText.{hole_term_text, hole_ending_text, hole_move_text, hole_list_text, cc_alone};
ghost use Rattle.po_model.specs.RuleText.{cc_behind, names_text, ask_text, answer_text, asked_text, path_text};
ghost use Rattle.po_model.specs.RuleText.{result_text, rule_text};

use itoa::Buffer;
use po_model::{PCond, PReg, PTerm, PTransfer, Pattern, Rule};
use po_termtext::{push, push_bin, push_constant, push_number, push_reg, push_rel, push_un};
use po_word::{CExpr, OutOfMemory, Question, Rel};
use std::alloc::Global;

/// A number by its signed view.
fn push_signed(out: &mut Vec<u8>, n: i32) -> Result<(), OutOfMemory>
    ensures { OnOk result (out.new.items ≡ out.old.items ++ signed_decimal n) }
{
    push(out, Buffer::new().format(n).as_bytes())
}

/// The hole of a constant.
fn push_hole(out: &mut Vec<u8>, k: u16) -> Result<(), OutOfMemory>
    ensures { OnOk result (out.new.items ≡ out.old.items ++ codes "#" ++ decimal k) }
{
    push(out, b"#")?;
    push_number(out, u32::from(k))
}

fn push_expr(out: &mut Vec<u8>, e: &CExpr) -> Result<(), OutOfMemory>
    ensures { OnOk result (out.new.items ≡ out.old.items ++ expr_text (expr_of e.now)) }
{
    match e {
        CExpr::Num(c) => push_constant(out, *c),
        CExpr::Hole(k) => push_hole(out, *k),
        CExpr::Un(op, x) => {
            push_un(out, *op)?;
            push(out, b"(")?;
            push_expr(out, x)?;
            push(out, b")")
        }
        CExpr::Bin(op, x, y) => {
            push(out, b"(")?;
            push_expr(out, x)?;
            push(out, b" ")?;
            push_bin(out, *op)?;
            push(out, b" ")?;
            push_expr(out, y)?;
            push(out, b")")
        }
        CExpr::Log2(x) => {
            push(out, b"log2(")?;
            push_expr(out, x)?;
            push(out, b")")
        }
    }
}

/// An expression as a constant of a term: an operator stands between braces.
fn push_const(out: &mut Vec<u8>, e: &CExpr) -> Result<(), OutOfMemory>
    ensures { OnOk result (out.new.items ≡ out.old.items ++ hole_const_text (expr_of e.now)) }
{
    match e {
        CExpr::Num(c) => push_constant(out, *c),
        CExpr::Hole(k) => push_hole(out, *k),
        CExpr::Un(_, _) => push_braced(out, e),
        CExpr::Bin(_, _, _) => push_braced(out, e),
        CExpr::Log2(_) => push_braced(out, e),
    }
}

fn push_braced(out: &mut Vec<u8>, e: &CExpr) -> Result<(), OutOfMemory>
    ensures { OnOk result (out.new.items ≡ out.old.items ++ codes "{" ++ expr_text (expr_of e.now) ++ codes "}") }
{
    push(out, b"{")?;
    push_expr(out, e)?;
    push(out, b"}")
}

fn push_hole_reg(out: &mut Vec<u8>, r: PReg) -> Result<(), OutOfMemory>
    ensures { OnOk result (out.new.items ≡ out.old.items ++ hole_reg_text r) }
{
    match r {
        PReg::Hole(k) => {
            push(out, b"%")?;
            push_number(out, u32::from(k))
        }
        PReg::Fixed(r) => push_reg(out, r),
    }
}

fn push_symbol(out: &mut Vec<u8>, k: u16) -> Result<(), OutOfMemory>
    ensures { OnOk result (out.new.items ≡ out.old.items ++ hole_symbol_text k) }
{
    push(out, b"&")?;
    push_number(out, u32::from(k))
}

fn push_term(out: &mut Vec<u8>, t: &PTerm) -> Result<(), OutOfMemory>
    ensures { OnOk result (out.new.items ≡ out.old.items ++ hole_term_text (hole_tree_of t.now)) }
{
    match t {
        PTerm::Const(e) => push_const(out, e),
        PTerm::Reg(r) => push_hole_reg(out, *r),
        PTerm::Addr(k) => push_symbol(out, *k),
        PTerm::Mem(a) => {
            push(out, b"M[")?;
            push_term(out, a)?;
            push(out, b"]")
        }
        PTerm::Un(op, a) => {
            push_un(out, *op)?;
            push(out, b"(")?;
            push_term(out, a)?;
            push(out, b")")
        }
        PTerm::Bin(op, a, b) => {
            push(out, b"(")?;
            push_term(out, a)?;
            push(out, b" ")?;
            push_bin(out, *op)?;
            push(out, b" ")?;
            push_term(out, b)?;
            push(out, b")")
        }
    }
}

/// A branch, whose condition is the pair in `cc` or two terms.
fn push_branch(out: &mut Vec<u8>, cond: &PCond, rel: Rel) -> Result<(), OutOfMemory>
    ensures { OnOk result (out.new.items ≡ out.old.items ++ hole_ending_text (hole_branch_of cond.now rel)) }
{
    push(out, b"if ")?;
    match cond {
        PCond::Cc => push(out, b"cc")?,
        PCond::Two(a, b) => {
            push_term(out, a)?;
            push(out, b" ? ")?;
            push_term(out, b)?;
        }
    }
    push(out, b" ")?;
    push_rel(out, rel)?;
    push(out, b" goto @0")
}

fn push_transfer(out: &mut Vec<u8>, transfer: &PTransfer) -> Result<(), OutOfMemory>
    ensures { OnOk result (out.new.items ≡ out.old.items ++ hole_move_text (hole_move_of transfer.now)) }
{
    match transfer {
        PTransfer::Set(r, a) => {
            push_hole_reg(out, *r)?;
            push(out, b" := ")?;
            push_term(out, a)
        }
        PTransfer::Cc(a, b) => {
            push(out, b"cc := ")?;
            push_term(out, a)?;
            push(out, b" ? ")?;
            push_term(out, b)
        }
        PTransfer::Store(a, b) => {
            push(out, b"M[")?;
            push_term(out, a)?;
            push(out, b"] := ")?;
            push_term(out, b)
        }
        PTransfer::Goto => push(out, b"goto @0"),
        PTransfer::If(cond, rel) => push_branch(out, cond, *rel),
        PTransfer::Call(k, n) => {
            push(out, b"call ")?;
            push_symbol(out, *k)?;
            push(out, b" ")?;
            push_number(out, u32::from(*n))
        }
        PTransfer::Ret => push(out, b"ret"),
    }
}

/// The transfers behind the first, each behind the separator.
fn push_others(out: &mut Vec<u8>, others: &[PTransfer]) -> Result<(), OutOfMemory>
    ensures { OnOk result (out.new.items
        ≡ out.old.items ++ flat_map (λ text. codes " ; " ++ text) (map hole_move_text (hole_moves_of others.now))) }
{
    for transfer in others {
        push(out, b" ; ")?;
        push_transfer(out, transfer)?;
    }
    Ok(())
}

fn push_list(out: &mut Vec<u8>, xs: &[PTransfer]) -> Result<(), OutOfMemory>
    ensures { OnOk result (out.new.items ≡ out.old.items ++ hole_list_text (hole_moves_of xs.now)) }
{
    match xs {
        [] => Ok(()),
        [first, others @ ..] => {
            push_transfer(out, first)?;
            push_others(out, others)
        }
    }
}

/// The registers behind the first, each behind a blank.
fn push_other_regs(out: &mut Vec<u8>, others: &[PReg]) -> Result<(), OutOfMemory>
    ensures { OnOk result (out.new.items
        ≡ out.old.items ++ flat_map (λ text. codes " " ++ text) (map hole_reg_text others.now)) }
{
    for r in others {
        push(out, b" ")?;
        push_hole_reg(out, *r)?;
    }
    Ok(())
}

/// Where no register is live: `cc`, or a dash.
fn push_cc_alone(out: &mut Vec<u8>, cc: bool) -> Result<(), OutOfMemory>
    ensures { OnOk result (out.new.items ≡ out.old.items ++ cc_alone cc) }
{
    if cc {
        push(out, b"cc")
    } else {
        push(out, b"-")
    }
}

/// Behind the registers that are live: `cc`, where it is.
fn push_cc_behind(out: &mut Vec<u8>, cc: bool) -> Result<(), OutOfMemory>
    ensures { OnOk result (out.new.items ≡ out.old.items ++ cc_behind cc) }
{
    if cc { push(out, b" cc") } else { Ok(()) }
}

/// What is live, or a dash.
fn push_names(out: &mut Vec<u8>, live: &[PReg], cc: bool) -> Result<(), OutOfMemory>
    ensures { OnOk result (out.new.items ≡ out.old.items ++ names_text live.now cc) }
{
    match live {
        [] => push_cc_alone(out, cc),
        [first, others @ ..] => {
            push_hole_reg(out, *first)?;
            push_other_regs(out, others)?;
            push_cc_behind(out, cc)
        }
    }
}

fn push_two(out: &mut Vec<u8>, e: &CExpr, f: &CExpr) -> Result<(), OutOfMemory>
    ensures { OnOk result (out.new.items
        ≡ out.old.items ++ codes "(" ++ expr_text (expr_of e.now)
        ++ codes "," ++ expr_text (expr_of f.now) ++ codes ")") }
{
    push(out, b"(")?;
    push_expr(out, e)?;
    push(out, b",")?;
    push_expr(out, f)?;
    push(out, b")")
}

fn push_question(out: &mut Vec<u8>, q: &Question) -> Result<(), OutOfMemory>
    ensures { OnOk result (out.new.items ≡ out.old.items ++ ask_text (ask_of q.now)) }
{
    match q {
        Question::IsZero(e) => {
            push(out, b"zero(")?;
            push_expr(out, e)?;
            push(out, b")")
        }
        Question::IsOne(e) => {
            push(out, b"one(")?;
            push_expr(out, e)?;
            push(out, b")")
        }
        Question::IsOnes(e) => {
            push(out, b"ones(")?;
            push_expr(out, e)?;
            push(out, b")")
        }
        Question::IsPow2(e) => {
            push(out, b"pow2(")?;
            push_expr(out, e)?;
            push(out, b")")
        }
        Question::InRange(e, lo, hi) => {
            push(out, b"in(")?;
            push_expr(out, e)?;
            push(out, b",")?;
            push_signed(out, *lo)?;
            push(out, b",")?;
            push_signed(out, *hi)?;
            push(out, b")")
        }
        Question::Equal(e, f) => {
            push(out, b"same")?;
            push_two(out, e, f)
        }
        Question::Holds(rel, e, f) => {
            push_rel(out, *rel)?;
            push_two(out, e, f)
        }
    }
}

fn push_answer(out: &mut Vec<u8>, yes: bool) -> Result<(), OutOfMemory>
    ensures { OnOk result (out.new.items ≡ out.old.items ++ answer_text yes) }
{
    if yes {
        push(out, b" yes")
    } else {
        push(out, b" no")
    }
}

fn push_asked(out: &mut Vec<u8>, asked: &(Question, bool)) -> Result<(), OutOfMemory>
    ensures { OnOk result (out.new.items ≡ out.old.items ++ asked_text (answered_of asked.now)) }
{
    let (q, yes) = asked;
    push_question(out, q)?;
    push_answer(out, *yes)
}

/// The questions behind the first, each behind the separator.
fn push_other_asked(out: &mut Vec<u8>, others: &[(Question, bool)]) -> Result<(), OutOfMemory>
    ensures { OnOk result (out.new.items
        ≡ out.old.items ++ flat_map (λ text. codes ", " ++ text) (map asked_text (asked_of others.now))) }
{
    for asked in others {
        push(out, b", ")?;
        push_asked(out, asked)?;
    }
    Ok(())
}

/// The questions with their answers, or a dash.
fn push_path(out: &mut Vec<u8>, asked: &[(Question, bool)]) -> Result<(), OutOfMemory>
    ensures { OnOk result (out.new.items ≡ out.old.items ++ path_text (asked_of asked.now)) }
{
    match asked {
        [] => push(out, b"-"),
        [first, others @ ..] => {
            push_asked(out, first)?;
            push_other_asked(out, others)
        }
    }
}

fn push_result(out: &mut Vec<u8>, p: &Pattern) -> Result<(), OutOfMemory>
    ensures { OnOk result (out.new.items ≡ out.old.items ++ result_text (result_of p.now)) }
{
    match p {
        Pattern::Keep => push(out, b"keep"),
        Pattern::Nothing => push(out, b"nothing"),
        Pattern::One(xs) => push_list(out, xs),
    }
}

/// The text of a rule, one line without its line feed (docs/RULES.md, "The text of a rule"). It fails only where
/// memory is refused.
pub fn print_rule(alloc: Global, r: &Rule) -> Result<Vec<u8>, OutOfMemory>
    ensures { IfOk result (λ text. text.items ≡ rule_text (rule_of r.now)) }
{
    let mut out = Vec::new(alloc);
    push_list(&mut out, &r.shape.a)?;
    push(&mut out, b" | ")?;
    push_list(&mut out, &r.shape.b)?;
    push(&mut out, b" live ")?;
    push_names(&mut out, &r.shape.live, r.shape.cc)?;
    push(&mut out, b" ask ")?;
    push_path(&mut out, &r.asked)?;
    push(&mut out, b" => ")?;
    push_result(&mut out, &r.result)?;
    Ok(out)
}

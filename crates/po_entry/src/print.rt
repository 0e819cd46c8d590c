//! Printing: each `push_` function adds the text of one thing at the end of what was printed so far.

ghost use Rattle.std.specs.Prelude.{◌≡◌, ◌++◌, map, codes, OnOk, OnErr, IfOk};
ghost use Rattle.std.specs.List.{flat_map};
ghost use Rattle.std.specs.Fmt.{decimal, signed_decimal};
ghost use Rattle.po_termtext.specs.TermText.{const_text, reg_text, un_text, bin_text, rel_text};
ghost use Rattle.po_model.specs.Patterns.{pattern_of, branch_of, pat_move_of, pat_moves_of};
ghost use Rattle.po_entry.specs.EntryText.{operand_text, pat_reg_text, range_text, pat_term_text, pat_move_text};
ghost use Rattle.po_entry.specs.EntryText.{pattern_text, is_mark as is_mark_byte, piece_text, byte_text};
ghost use Rattle.po_entry.specs.EntryText.{template_text, entry_text};

use itoa::Buffer;
use po_model::{Bounds, Entry, PatCond, PatReg, PatTerm, PatTransfer, Piece};
use po_termtext::{push, push_bin, push_constant, push_reg as push_fixed, push_rel, push_un};
use po_word::{OutOfMemory, Rel};
use std::alloc::Global;

/// Adds the line of an entry, without its line feed, at the end of `out` (docs/DESCRIPTION.md, "Entries"). Only
/// memory can fail, and then `out` is as it was.
pub fn print_entry(alloc: Global, e: &Entry, out: &mut Vec<u8>) -> Result<(), OutOfMemory>
    ensures text { OnOk result (out.new.items ≡ out.old.items ++ entry_text e.now) }
    ensures kept { OnErr result (out.new.items ≡ out.old.items) }
{
    let text = entry_line(alloc, e)?;
    out.extend_from_slice(text.as_slice())?;
    Ok(())
}

/// The line of an entry.
#[tactic(auto, unfolding(crate::specs::EntryText::entry_text))]
fn entry_line(alloc: Global, e: &Entry) -> Result<Vec<u8>, OutOfMemory>
    ensures { IfOk result (λ text. text.items ≡ entry_text e.now) }
{
    let mut out = Vec::new(alloc);
    push(&mut out, b"insn ")?;
    push_pattern(&mut out, e.pattern.as_slice())?;
    if e.clobbers {
        push(&mut out, b" clobber cc")?;
    }
    push(&mut out, b" => ")?;
    push_template(&mut out, e.template.as_slice())?;
    Ok(out)
}

/// The transfers of an entry.
fn push_pattern(out: &mut Vec<u8>, transfers: &[PatTransfer]) -> Result<(), OutOfMemory>
    ensures { OnOk result (out.new.items ≡ out.old.items ++ pattern_text (pat_moves_of transfers.now)) }
{
    match transfers {
        [] => Ok(()),
        [first, others @ ..] => {
            push_transfer(out, first)?;
            push_others(out, others)
        }
    }
}

/// The transfers behind the first, each behind the separator.
fn push_others(out: &mut Vec<u8>, others: &[PatTransfer]) -> Result<(), OutOfMemory>
    ensures { OnOk result (out.new.items ≡ out.old.items ++ flat_map (λ text. codes " ; " ++ text)
        (map pat_move_text (pat_moves_of others.now))) }
{
    for transfer in others {
        push(out, b" ; ")?;
        push_transfer(out, transfer)?;
    }
    Ok(())
}

/// A number by its signed view.
fn push_signed(out: &mut Vec<u8>, n: i32) -> Result<(), OutOfMemory>
    ensures { OnOk result (out.new.items ≡ out.old.items ++ signed_decimal n) }
{
    push(out, Buffer::new().format(n).as_bytes())
}

/// An operand: its mark and its digit.
fn push_operand(out: &mut Vec<u8>, mark: &[u8], k: u8) -> Result<(), OutOfMemory>
    ensures { OnOk result (out.new.items ≡ out.old.items ++ operand_text mark.now k) }
{
    push(out, mark)?;
    push(out, Buffer::new().format(k).as_bytes())
}

fn push_reg(out: &mut Vec<u8>, r: PatReg) -> Result<(), OutOfMemory>
    ensures { OnOk result (out.new.items ≡ out.old.items ++ pat_reg_text r) }
{
    match r {
        PatReg::Any(k) => push_operand(out, b"%", k),
        PatReg::Fixed(r) => push_fixed(out, r),
    }
}

fn push_range(out: &mut Vec<u8>, range: Option<Bounds>) -> Result<(), OutOfMemory>
    ensures { OnOk result (out.new.items ≡ out.old.items ++ range_text range) }
{
    match range {
        None => Ok(()),
        Some(bounds) => {
            push(out, b"[")?;
            push_signed(out, bounds.lo)?;
            push(out, b",")?;
            push_signed(out, bounds.hi)?;
            push(out, b"]")
        }
    }
}

fn push_term(out: &mut Vec<u8>, t: &PatTerm) -> Result<(), OutOfMemory>
    ensures { OnOk result (out.new.items ≡ out.old.items ++ pat_term_text (pattern_of t.now)) }
{
    match t {
        PatTerm::Reg(r) => push_reg(out, *r),
        PatTerm::Num(c) => push_constant(out, *c),
        PatTerm::Const(k, range) => {
            push_operand(out, b"#", *k)?;
            push_range(out, *range)
        }
        PatTerm::Addr(k) => push_operand(out, b"&", *k),
        PatTerm::Mem(a) => {
            push(out, b"M[")?;
            push_term(out, a.get())?;
            push(out, b"]")
        }
        PatTerm::Un(op, a) => {
            push_un(out, *op)?;
            push(out, b"(")?;
            push_term(out, a.get())?;
            push(out, b")")
        }
        PatTerm::Bin(op, a, b) => {
            push(out, b"(")?;
            push_term(out, a.get())?;
            push(out, b" ")?;
            push_bin(out, *op)?;
            push(out, b" ")?;
            push_term(out, b.get())?;
            push(out, b")")
        }
    }
}

/// A branch, whose condition is the pair in `cc` or two terms.
fn push_branch(out: &mut Vec<u8>, cond: &PatCond, rel: Rel, k: u8) -> Result<(), OutOfMemory>
    ensures { OnOk result (out.new.items ≡ out.old.items ++ pat_move_text (branch_of cond.now rel k)) }
{
    push(out, b"if ")?;
    match cond {
        PatCond::Cc => push(out, b"cc")?,
        PatCond::Two(a, b) => {
            push_term(out, a)?;
            push(out, b" ? ")?;
            push_term(out, b)?;
        }
    }
    push(out, b" ")?;
    push_rel(out, rel)?;
    push(out, b" goto ")?;
    push_operand(out, b"@", k)
}

fn push_transfer(out: &mut Vec<u8>, transfer: &PatTransfer) -> Result<(), OutOfMemory>
    ensures { OnOk result (out.new.items ≡ out.old.items ++ pat_move_text (pat_move_of transfer.now)) }
{
    match transfer {
        PatTransfer::Set(r, a) => {
            push_reg(out, *r)?;
            push(out, b" := ")?;
            push_term(out, a)
        }
        PatTransfer::Cc(a, b) => {
            push(out, b"cc := ")?;
            push_term(out, a)?;
            push(out, b" ? ")?;
            push_term(out, b)
        }
        PatTransfer::Store(a, b) => {
            push(out, b"M[")?;
            push_term(out, a)?;
            push(out, b"] := ")?;
            push_term(out, b)
        }
        PatTransfer::Goto(k) => {
            push(out, b"goto ")?;
            push_operand(out, b"@", *k)
        }
        PatTransfer::If(cond, rel, k) => push_branch(out, cond, *rel, *k),
        PatTransfer::Call(k) => {
            push(out, b"call ")?;
            push_operand(out, b"&", *k)
        }
        PatTransfer::Ret => push(out, b"ret"),
    }
}

/// Whether an operand begins with this byte.
fn is_mark(byte: u8) -> bool
    ensures { result ≡ is_mark_byte byte }
{
    matches!(byte, b'%' | b'#' | b'@' | b'&')
}

/// A byte that stands for itself; a mark is written twice.
fn push_byte(out: &mut Vec<u8>, byte: u8) -> Result<(), OutOfMemory>
    ensures { OnOk result (out.new.items ≡ out.old.items ++ byte_text byte) }
{
    if is_mark(byte) {
        return push(out, &[byte, byte]);
    }
    push(out, &[byte])
}

fn push_piece(out: &mut Vec<u8>, piece: Piece) -> Result<(), OutOfMemory>
    ensures { OnOk result (out.new.items ≡ out.old.items ++ piece_text piece) }
{
    match piece {
        Piece::Byte(byte) => push_byte(out, byte),
        Piece::Reg(k) => push_operand(out, b"%", k),
        Piece::Num(k) => push_operand(out, b"#", k),
        Piece::Label(k) => push_operand(out, b"@", k),
        Piece::Sym(k) => push_operand(out, b"&", k),
    }
}

fn push_template(out: &mut Vec<u8>, template: &[Piece]) -> Result<(), OutOfMemory>
    ensures { OnOk result (out.new.items ≡ out.old.items ++ template_text template.now) }
{
    for piece in template {
        push_piece(out, *piece)?;
    }
    Ok(())
}

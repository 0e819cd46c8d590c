//! Printing: each `push_` function adds the text of one thing at the end of what was printed so far.

ghost use Rattle.std.specs.Prelude.{◌≡◌, ◌++◌, ◌∷◌, [], codes, IfOk, OnOk};
ghost use Rattle.std.specs.List.{flat_map, join_with_byte};
ghost use Rattle.std.specs.Fmt.{decimal};
ghost use Rattle.po_ir.specs.Keys.{bin_text, un_text, rel_text};
ghost use Rattle.po_ir.specs.Printing.{number_text, op_words, line_text, unit_text};
ghost use Rattle.po_ir.specs.Units.{IsUnit};

use crate::unit::{Op, Unit};
use itoa::Buffer;
use po_name::Name;
use po_word::{Bin, OutOfMemory, Rel, Un};
use std::alloc::Global;

/// The text of a unit that the language allows: a line for its name, one for each operation, and one for its end
/// (docs/STACK.md, "Printed units"). Only memory can fail.
pub fn print_unit(alloc: Global, u: &Unit) -> Result<Vec<u8>, OutOfMemory>
    requires { IsUnit u.now }
    ensures { IfOk result (λ text. text.items ≡ unit_text u.now) }
{
    let mut out = Vec::new(alloc);
    push_named(&mut out, b"unit ", &u.name)?;
    push(&mut out, b"\n")?;
    push_ops(&mut out, u.ops.as_slice())?;
    push(&mut out, b"end\n")?;
    Ok(out)
}

fn push(out: &mut Vec<u8>, text: &[u8]) -> Result<(), OutOfMemory>
    ensures { OnOk result (out.new.items ≡ out.old.items ++ text.now) }
{
    out.extend_from_slice(text)?;
    Ok(())
}

/// The lines of operations.
fn push_ops(out: &mut Vec<u8>, ops: &[Op]) -> Result<(), OutOfMemory>
    ensures { OnOk result (out.new.items ≡ out.old.items ++ flat_map (λ o. line_text (op_words o)) ops.now) }
{
    for op in ops {
        push_op(out, op)?;
        push(out, b"\n")?;
    }
    Ok(())
}

/// A line without its line feed.
fn push_op(out: &mut Vec<u8>, op: &Op) -> Result<(), OutOfMemory>
    ensures { OnOk result (out.new.items ≡ out.old.items ++ join_with_byte 32 (op_words op.now)) }
{
    match op {
        Op::Con(number) => push_word(out, b"con ", *number),
        Op::Adl(number) => push_word(out, b"adl ", *number),
        Op::Adg(name) => push_named(out, b"adg ", name),
        Op::Lod => push(out, b"lod"),
        Op::Sto => push(out, b"sto"),
        Op::Bin(op) => push_bin(out, *op),
        Op::Un(op) => push_un(out, *op),
        Op::Dup => push(out, b"dup"),
        Op::Pop => push(out, b"pop"),
        Op::Lab(label) => push_named(out, b"lab ", label),
        Op::Jmp(label) => push_named(out, b"jmp ", label),
        Op::Br(rel, label) => push_branch(out, *rel, label),
        Op::Arg(number) => push_counted(out, b"arg ", *number),
        Op::Call(name, count) => push_call(out, name, *count),
        Op::Ret => push(out, b"ret"),
    }
}

/// What stands before a name, and the name.
fn push_named(out: &mut Vec<u8>, before: &[u8], name: &Name) -> Result<(), OutOfMemory>
    ensures { OnOk result (out.new.items ≡ out.old.items ++ before.now ++ name.now) }
{
    push(out, before)?;
    push(out, name.bytes())
}

/// What stands before the number of a machine word, and the number.
fn push_word(out: &mut Vec<u8>, before: &[u8], number: u32) -> Result<(), OutOfMemory>
    ensures { OnOk result (out.new.items ≡ out.old.items ++ before.now ++ number_text number) }
{
    push(out, before)?;
    push(out, Buffer::new().format(number.cast_signed()).as_bytes())
}

/// What stands before a small number, and the number.
fn push_counted(out: &mut Vec<u8>, before: &[u8], number: u8) -> Result<(), OutOfMemory>
    ensures { OnOk result (out.new.items ≡ out.old.items ++ before.now ++ decimal number) }
{
    push(out, before)?;
    push(out, Buffer::new().format(number).as_bytes())
}

fn push_branch(out: &mut Vec<u8>, rel: Rel, label: &Name) -> Result<(), OutOfMemory>
    ensures { OnOk result (out.new.items ≡ out.old.items ++ rel_text rel ++ 32 ∷ label.now) }
{
    push_rel(out, rel)?;
    push_named(out, b" ", label)
}

fn push_call(out: &mut Vec<u8>, name: &Name, count: u8) -> Result<(), OutOfMemory>
    ensures { OnOk result (out.new.items ≡ out.old.items ++ codes "call " ++ name.now ++ 32 ∷ decimal count) }
{
    push_named(out, b"call ", name)?;
    push_counted(out, b" ", count)
}

fn push_bin(out: &mut Vec<u8>, op: Bin) -> Result<(), OutOfMemory>
    ensures { OnOk result (out.new.items ≡ out.old.items ++ bin_text op) }
{
    match op {
        Bin::Add => push(out, b"add"),
        Bin::Sub => push(out, b"sub"),
        Bin::Mul => push(out, b"mul"),
        Bin::And => push(out, b"and"),
        Bin::Or => push(out, b"ior"),
        Bin::Xor => push(out, b"xor"),
        Bin::Shl => push(out, b"shl"),
        Bin::Shr => push(out, b"shr"),
        Bin::Sar => push(out, b"sar"),
    }
}

fn push_un(out: &mut Vec<u8>, op: Un) -> Result<(), OutOfMemory>
    ensures { OnOk result (out.new.items ≡ out.old.items ++ un_text op) }
{
    match op {
        Un::Neg => push(out, b"neg"),
        Un::Not => push(out, b"not"),
    }
}

fn push_rel(out: &mut Vec<u8>, rel: Rel) -> Result<(), OutOfMemory>
    ensures { OnOk result (out.new.items ≡ out.old.items ++ rel_text rel) }
{
    match rel {
        Rel::Eq => push(out, b"beq"),
        Rel::Ne => push(out, b"bne"),
        Rel::Lt => push(out, b"blt"),
        Rel::Le => push(out, b"ble"),
        Rel::Gt => push(out, b"bgt"),
        Rel::Ge => push(out, b"bge"),
        Rel::Ltu => push(out, b"bltu"),
        Rel::Geu => push(out, b"bgeu"),
    }
}

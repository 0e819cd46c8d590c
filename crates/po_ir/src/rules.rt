//! What an operation does to the stack, to the block and to the labels, and the fault that it decides.

ghost use Rattle.std.specs.Prelude.{◌≡◌, ◌≤◌, ◌+◌, ◌++◌, [], false, IfNone, OnOk, find, nat_eq};
ghost use Rattle.std.specs.List.{list_any};
ghost use Rattle.std.specs.Option.{option_copied};
ghost use Rattle.po_ir.specs.Ops as ops;
ghost use Rattle.po_ir.specs.Faults as faults;
ghost use Rattle.po_ir.specs.Reading as reading;

use crate::unit::{Jump, Op};
use po_lines::{LineFault, Names};
use po_text::Kind;
use sqlite_items::Items;
use std::alloc::{AllocError, Global};

/// So many values are taken from the stack.
pub fn pops(op: &Op) -> u32
    ensures value { result ≡ ops.pops op.now }
    ensures few { result ≤ 2 }
{
    match op {
        Op::Con(_) | Op::Adl(_) | Op::Adg(_) | Op::Lab(_) | Op::Jmp(_) | Op::Call(_, _) => 0,
        Op::Lod | Op::Un(_) | Op::Dup | Op::Pop | Op::Arg(_) | Op::Ret => 1,
        Op::Sto | Op::Bin(_) | Op::Br(_, _) => 2,
    }
}

/// So many values are put onto the stack.
pub fn pushes(op: &Op) -> u32
    ensures value { result ≡ ops.pushes op.now }
    ensures few { result ≤ 2 }
{
    match op {
        Op::Con(_) | Op::Adl(_) | Op::Adg(_) | Op::Lod | Op::Bin(_) | Op::Un(_) => 1,
        Op::Call(_, _) => 1,
        Op::Dup => 2,
        Op::Sto | Op::Pop | Op::Lab(_) | Op::Jmp(_) | Op::Br(_, _) | Op::Arg(_) | Op::Ret => 0,
    }
}

/// Whether a block ends or begins there.
pub fn is_boundary(op: &Op) -> bool
    ensures { result ≡ ops.is_boundary op.now }
{
    matches!(
        op,
        Op::Lab(_) | Op::Jmp(_) | Op::Br(_, _) | Op::Call(_, _) | Op::Ret
    )
}

/// Whether what stands behind it isn't reached from it.
pub fn leaves(op: &Op) -> bool
    ensures { result ≡ ops.leaves op.now }
{
    matches!(op, Op::Jmp(_) | Op::Ret)
}

/// The values on the stack behind an operation.
pub fn depth_after(depth: u32, op: &Op) -> u32
    requires fits { ops.pops op.now ≤ depth }
    requires short { depth ≤ 64 }
    ensures { result ≡ ops.depth_by depth op.now }
{
    depth - pops(op) + pushes(op)
}

/// Whether the operation names a label that is there already.
fn repeats(labels: &Names, op: &Op) -> bool
    ensures { result ≡ faults.repeats labels.now op.now }
{
    match op {
        Op::Lab(label) => labels.contains(label.bytes()),
        _ => false,
    }
}

/// Whether each argument below a number is set.
fn has_args(count: u8, args: &[u8]) -> bool
    ensures { result ≡ faults.has_args count args.now }
{
    has_arg(0, count, args)
        && has_arg(1, count, args)
        && has_arg(2, count, args)
        && has_arg(3, count, args)
}

/// Whether this argument isn't below a number, or is set.
fn has_arg(number: u8, count: u8, args: &[u8]) -> bool
    ensures { result ≡ faults.has_arg count args.now number }
{
    count <= number || is_set(number, args)
}

/// Whether this argument is set.
fn is_set(number: u8, args: &[u8]) -> bool
    ensures { result ≡ list_any (nat_eq number) args.now }
{
    args.iter().any(|arg| number == *arg)
}

/// How many arguments have to be set before the operation.
fn args_wanted(op: &Op) -> u8
    ensures { result ≡ ops.args_wanted op.now }
{
    match op {
        Op::Call(_, count) => *count,
        _ => 0,
    }
}

/// The fault that the operation decides, if its label stands at this column.
pub fn fault_of(depth: u32, labels: &Names, args: &[u8], op: &Op, column: u32) -> Option<LineFault>
    requires { depth ≤ 64 }
    ensures exact { result ≡ faults.op_fault depth labels.now args.now op.now column }
    ensures fits { IfNone result (ops.pops op.now ≤ depth) }
    ensures short { IfNone result (ops.depth_by depth op.now ≤ 64) }
    ensures new { IfNone result (faults.repeats labels.now op.now ≡ false) }
{
    if repeats(labels, op) {
        return Some(LineFault::at(column, Kind::Duplicate));
    }
    if depth < pops(op) {
        return Some(LineFault::at(1, Kind::StackUnderflow));
    }
    if depth_after(depth, op) > 64 {
        return Some(LineFault::at(1, Kind::TooMany));
    }
    if is_boundary(op) && pops(op) < depth {
        return Some(LineFault::at(1, Kind::StackAtBoundary));
    }
    if !has_args(args_wanted(op), args) {
        return Some(LineFault::at(1, Kind::ArgMissing));
    }
    None
}

/// The label of the operation goes to those so far.
pub fn add_label(alloc: Global, labels: &mut Names, op: &Op) -> Result<(), AllocError>
    requires { faults.repeats labels.old op.now ≡ false }
    ensures { OnOk result (labels.new ≡ labels.old ++ ops.label_in op.now) }
{
    if let Op::Lab(label) = op {
        labels.insert(alloc, label.bytes())?;
    }
    Ok(())
}

/// The jump of the operation, whose label stands at this place, goes to those so far.
pub fn add_jump(
    alloc: Global,
    jumps: &mut Items<Jump>,
    op: &Op,
    line: u32,
    column: u32,
) -> Result<(), AllocError>
    ensures { OnOk result (jumps.new ≡ jumps.old ++ reading.jumps_in line column op.now) }
{
    match op {
        Op::Jmp(label) | Op::Br(_, label) => jumps.push(Jump {
            line,
            column,
            label: Items::from_slice(alloc, label.bytes())?,
        })?,
        _ => {}
    }
    Ok(())
}

/// The argument that the operation sets goes to those of its block; where a block ends or begins, none is set.
pub fn set_arg(alloc: Global, args: &mut Items<u8>, op: &Op) -> Result<(), AllocError>
    ensures { OnOk result (args.new ≡ ops.args_by args.old op.now) }
{
    if is_boundary(op) {
        clear(alloc, args);
        return Ok(());
    }
    if let Op::Arg(number) = op {
        args.push(*number)?;
    }
    Ok(())
}

/// No argument is set.
fn clear(alloc: Global, args: &mut Items<u8>)
    ensures { args.new ≡ [] }
{
    if !args.is_empty() {
        *args = Items::new(alloc);
    }
}

/// The first jump whose label isn't there.
pub fn first_miss<'a>(jumps: &'a [Jump], labels: &Names) -> Option<&'a Jump>
    ensures { option_copied result ≡ find (faults.misses labels.now) jumps.now }
{
    jumps
        .iter()
        .find(|jump| !labels.contains(jump.label.as_slice()))
}

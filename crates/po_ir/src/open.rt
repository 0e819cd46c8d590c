//! One more operation of a unit that has begun.

ghost use Rattle.std.specs.Prelude.{◌≡◌, map, OnOk};
ghost use Rattle.po_lines.specs.Faults.{Gives};
ghost use Rattle.po_lines.specs.Words.{seen};
ghost use Rattle.po_ir.specs.Reading as reading;

use crate::begun::Begun;
use crate::line::{operation, second_column};
use crate::rules::{add_jump, add_label, depth_after, fault_of, leaves, set_arg};
use crate::unit::{Key, Op};
use po_lines::{LineError, Word, fault_at};
use po_text::Kind;
use std::alloc::Global;

/// One more operation, whose label stands at this place.
#[tactic(auto, unfolding(crate::specs::Reading::with_op), using(crate::proofs::Prefix::one_more_op))]
fn add_op(alloc: Global, begun: &mut Begun, line: u32, column: u32, op: Op) -> Result<(), LineError>
    requires { reading.IsKept begun.old }
    ensures gives { Gives (λ _. reading.shown begun.new) result
        (reading.with_op line column (reading.shown begun.old) op) }
    ensures kept { OnOk result (reading.IsKept begun.new) }
    ensures name { OnOk result (begun.new.name ≡ begun.old.name) }
{
    if let Some(fault) = fault_of(
        begun.depth,
        &begun.labels,
        begun.args.as_slice(),
        &op,
        column,
    ) {
        return Err(LineError::Fault(fault));
    }
    add_label(alloc, &mut begun.labels, &op)?;
    add_jump(alloc, &mut begun.jumps, &op, line, column)?;
    set_arg(alloc, &mut begun.args, &op)?;
    begun.depth = depth_after(begun.depth, &op);
    begun.ended = leaves(&op);
    begun.ops.push(op)?;
    Ok(())
}

/// A line that begins with an operation's word.
#[tactic(auto, unfolding(crate::specs::Reading::op_line))]
pub fn op_line(
    alloc: Global,
    begun: &mut Begun,
    key: Key,
    words: &[Word],
    line: u32,
    end: u32,
) -> Result<(), LineError>
    requires { reading.IsKept begun.old }
    ensures gives { Gives (λ _. reading.shown begun.new) result
        (reading.op_line line (reading.shown begun.old) key (map seen words.now) end) }
    ensures kept { OnOk result (reading.IsKept begun.new) }
    ensures name { OnOk result (begun.new.name ≡ begun.old.name) }
{
    if begun.ops.len() == 65536 {
        return Err(fault_at(1, Kind::TooMany));
    }
    let op = operation(alloc, key, words, end)?;
    add_op(alloc, begun, line, second_column(words), op)
}

//! The interval of each virtual register that a code sets, by start and place in the list.
ghost use Rattle.std.specs.Prelude.{◌≡◌, ◌+◌, ◌*◌, ◌<◌, ◌^◌, ◌++◌, ◌∷◌, [], ℕ, OnOk, IfOk, map, length};
ghost use Rattle.po_term.specs.Moves.{move_of, moves_of, instr_of, instrs_of};
ghost use Rattle.po_model.specs.Blocks.{block_of};
ghost use Rattle.po_model.specs.UnitCodes.{written, flat};
ghost use Rattle.po_assign.specs.Reads.{read_at};
ghost use Rattle.po_assign.specs.Spans.{span_at, spans_from};

use po_model::Block;
use po_term::{Instr, Reg, Transfer};
use po_word::OutOfMemory;
use std::alloc::Global;

/// From the point of a register's write to that of its last read.
#[derive(Clone, Copy)]
pub struct Span {
    pub register: u32,
    pub start: u32,
    pub finish: u32,
}

/// The span of a register that is set at a point.
fn made_span(last: &[u32], start: u32, register: u32) -> Span
    ensures { result ≡ span_at (read_at last.now) start register }
{
    let read = last.get(register as usize).copied().unwrap_or(0);
    Span {
        register,
        start,
        finish: start.max(read),
    }
}

fn push_span(
    last: &[u32],
    start: u32,
    t: &Transfer,
    spans: &mut Vec<Span>,
) -> Result<(), OutOfMemory>
    ensures { OnOk result (spans.new.items ≡ spans.old.items ++ map (span_at (read_at last.now) start)
        (written (move_of t.now ∷ []))) }
{
    if let Transfer::Set(Reg::Virt(register), _) = t {
        spans.push(made_span(last, start, *register))?;
    }
    Ok(())
}

fn push_instr(
    last: &[u32],
    start: u32,
    xs: &[Transfer],
    spans: &mut Vec<Span>,
) -> Result<(), OutOfMemory>
    ensures { OnOk result (spans.new.items ≡ spans.old.items ++ map (span_at (read_at last.now) start)
        (written (moves_of xs.now))) }
{
    for t in xs {
        push_span(last, start, t, spans)?;
    }
    Ok(())
}

/// Adds the spans of a block, whose first instruction has the number `first`.
fn push_block(
    last: &[u32],
    first: u32,
    xs: &[Instr],
    spans: &mut Vec<Span>,
) -> Result<(), OutOfMemory>
    requires { first + length xs.now < 2 ^ 29 }
    ensures { OnOk result (spans.new.items ≡ spans.old.items ++ spans_from (read_at last.now) first
        (instrs_of xs.now)) }
{
    for (index, x) in xs.iter().enumerate() {
        push_instr(last, 2 * (first + index as u32) + 1, &x.xs, spans)?;
    }
    Ok(())
}

/// The spans of a code with these last reads.
pub fn spans_of(alloc: Global, last: &[u32], blocks: &[Block]) -> Result<Vec<Span>, OutOfMemory>
    requires { length (flat (map block_of blocks.now)) < 2 ^ 29 }
    ensures { IfOk result (λ spans. spans.items ≡ spans_from (read_at last.now) 0 (flat (map block_of blocks.now))) }
{
    let mut spans = Vec::with_capacity(alloc, last.len())?;
    let mut first = 0;
    for block in blocks {
        push_block(last, first, &block.instrs, &mut spans)?;
        first += block.instrs.len() as u32;
    }
    Ok(spans)
}

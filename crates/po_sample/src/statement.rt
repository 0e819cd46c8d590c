//! The statements of a sample unit. Each function puts the operations of one behind those so far.
ghost use Rattle.std.specs.Prelude.{◌≡◌, ◌++◌, ◌∷◌, [], true, IfOk, OnOk};
ghost use Rattle.std.specs.Fmt.{decimal};
ghost use Rattle.po_name.specs.Names.{is_name_byte, begins_name};
ghost use Rattle.po_sample.specs.Draws.{step};
ghost use Rattle.po_sample.specs.Sample as sample;

use crate::draws::Draws;
use itoa::Buffer;
use po_ir::{Name, Op};
use po_word::{Bin, OutOfMemory, Rel};
use sqlite_items::Items;
use std::alloc::Global;

/// The letter and the number in decimal.
fn lettered(alloc: Global, letter: u8, number: u32) -> Result<Vec<u8>, OutOfMemory>
    ensures { IfOk result (λ text. text.items ≡ letter ∷ decimal number) }
{
    let mut text = Vec::new(alloc);
    text.push(letter)?;
    text.extend_from_slice(Buffer::new().format(number).as_bytes())?;
    Ok(text)
}

/// The name of the letter and the number in decimal.
#[tactic(auto, using(crate::proofs::Numbered::numbered_name))]
pub fn numbered(alloc: Global, letter: u8, number: u32) -> Result<Name, OutOfMemory>
    requires letter { is_name_byte letter ≡ true }
    requires begins { begins_name (letter ∷ []) ≡ true }
    ensures { IfOk result (λ name. name ≡ letter ∷ decimal number) }
{
    let text = lettered(alloc, letter, number)?;
    match Name::new(alloc, &text)? {
        Some(name) => Ok(name),
        None => unreachable!(),
    }
}

/// The label of statement `j`.
fn label(alloc: Global, j: u32) -> Result<Name, OutOfMemory>
    ensures { IfOk result (λ name. name ≡ sample.label j) }
{
    numbered(alloc, b'L', j)
}

pub fn push(ops: &mut Items<Op>, op: Op) -> Result<(), OutOfMemory>
    ensures { OnOk result (ops.new ≡ ops.old ++ op ∷ []) }
{
    match ops.push(op) {
        Ok(()) => Ok(()),
        Err(_) => Err(OutOfMemory),
    }
}

/// The word at a place becomes a constant.
fn store_constant(ops: &mut Items<Op>, draws: &mut Draws) -> Result<(), OutOfMemory>
    ensures ops { OnOk result (ops.new ≡ ops.old
        ++ (sample.store_constant (step draws.old.0) (step (step draws.old.0))).ops) }
    ensures last { OnOk result (draws.new.0 ≡ step (step draws.old.0)) }
{
    let place = draws.place();
    let constant = draws.constant();
    push(ops, Op::Adl(place))?;
    push(ops, Op::Con(constant))?;
    push(ops, Op::Sto)
}

/// The word at a place grows by a constant.
fn add_constant(ops: &mut Items<Op>, draws: &mut Draws) -> Result<(), OutOfMemory>
    ensures ops { OnOk result (ops.new ≡ ops.old
        ++ (sample.add_constant (step draws.old.0) (step (step draws.old.0))).ops) }
    ensures last { OnOk result (draws.new.0 ≡ step (step draws.old.0)) }
{
    let place = draws.place();
    let constant = draws.constant();
    push(ops, Op::Adl(place))?;
    push(ops, Op::Adl(place))?;
    push(ops, Op::Lod)?;
    push(ops, Op::Con(constant))?;
    push(ops, Op::Bin(Bin::Add))?;
    push(ops, Op::Sto)
}

/// The word at a place becomes the sum of those at two places.
fn add_places(ops: &mut Items<Op>, draws: &mut Draws) -> Result<(), OutOfMemory>
    ensures ops { OnOk result (ops.new ≡ ops.old ++ (sample.add_places (step draws.old.0) (step (step draws.old.0))
        (step (step (step draws.old.0)))).ops) }
    ensures last { OnOk result (draws.new.0 ≡ step (step (step draws.old.0))) }
{
    let place = draws.place();
    let first = draws.place();
    let second = draws.place();
    push(ops, Op::Adl(place))?;
    push(ops, Op::Adl(first))?;
    push(ops, Op::Lod)?;
    push(ops, Op::Adl(second))?;
    push(ops, Op::Lod)?;
    push(ops, Op::Bin(Bin::Add))?;
    push(ops, Op::Sto)
}

/// The word at a place becomes 1, unless the word at another is a constant.
fn skip_equal(
    alloc: Global,
    ops: &mut Items<Op>,
    j: u32,
    draws: &mut Draws,
) -> Result<(), OutOfMemory>
    ensures ops { OnOk result (ops.new ≡ ops.old ++ (sample.skip_equal j (step draws.old.0) (step (step draws.old.0))
        (step (step (step draws.old.0)))).ops) }
    ensures last { OnOk result (draws.new.0 ≡ step (step (step draws.old.0))) }
{
    let place = draws.place();
    let other = draws.place();
    let constant = draws.constant();
    push(ops, Op::Adl(place))?;
    push(ops, Op::Lod)?;
    push(ops, Op::Con(constant))?;
    push(ops, Op::Br(Rel::Eq, label(alloc, j)?))?;
    push(ops, Op::Adl(other))?;
    push(ops, Op::Con(1))?;
    push(ops, Op::Sto)?;
    push(ops, Op::Lab(label(alloc, j)?))
}

/// Statement `j`.
pub fn statement(
    alloc: Global,
    ops: &mut Items<Op>,
    j: u32,
    draws: &mut Draws,
) -> Result<(), OutOfMemory>
    ensures ops { OnOk result (ops.new ≡ ops.old ++ (sample.statement j draws.old.0).ops) }
    ensures last { OnOk result (draws.new.0 ≡ (sample.statement j draws.old.0).last) }
{
    match draws.kind() {
        0 => store_constant(ops, draws),
        1 => add_constant(ops, draws),
        2 => add_places(ops, draws),
        _ => skip_equal(alloc, ops, j, draws),
    }
}

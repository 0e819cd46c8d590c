//! What is live of what an instruction or a pair sets.
ghost use Rattle.std.specs.Prelude.{◌≡◌, ◌∷◌, [], OnOk, IfOk};
ghost use Rattle.std.specs.List.{list_all};
ghost use Rattle.std.specs.BTreeSet.{insert_key};
ghost use Rattle.po_term.specs.contracts.term.RegOrd.TheImpl.{cmp-value};
ghost use Rattle.po_term.specs.Moves.{move_of, moves_of, instr_of};
ghost use Rattle.po_live.specs.Parts.{live_in};
ghost use Rattle.po_model.specs.Scanned.{is_dead_move, is_dead, put_live};

use po_live::LiveAt;
use po_model::Live;
use po_term::{Instr, Reg, Transfer};
use po_word::OutOfMemory;
use std::alloc::Global;
use std::collections::BTreeSet;

/// Whether the transfer sets only what isn't live.
fn is_dead_transfer(t: &Transfer, live: LiveAt) -> bool
    ensures { result ≡ is_dead_move (live_in live.entry) (move_of t.now) }
{
    match t {
        Transfer::Set(r, _) => !live.has(*r),
        Transfer::Cc(_, _) => !live.cc,
        Transfer::Store(_, _) => false,
        Transfer::Goto(_) => false,
        Transfer::If(_, _, _) => false,
        Transfer::Call(_, _) => false,
        Transfer::Ret => false,
    }
}

fn all_dead(xs: &[Transfer], live: LiveAt) -> bool
    ensures { result ≡ list_all (λ t. is_dead_move (live_in live.entry) (move_of t)) xs.now }
{
    xs.iter().all(|t| is_dead_transfer(t, live))
}

/// Whether the instruction has only sets and cc, and none of its targets is live after it.
pub fn is_dead(i: &Instr, live: LiveAt) -> bool
    ensures { result ≡ is_dead (live_in live.entry) (instr_of i.now) }
{
    all_dead(&i.xs, live)
}

fn put(regs: &mut BTreeSet<Reg>, r: Reg) -> Result<(), OutOfMemory>
    ensures { OnOk result (regs.new.keys ≡ insert_key cmp-value.it regs.old.keys r) }
{
    match regs.insert(r) {
        Ok(_) => Ok(()),
        Err(_) => Err(OutOfMemory),
    }
}

/// Puts the register that the transfer sets into the set, where it is live.
fn put_target(regs: &mut BTreeSet<Reg>, t: &Transfer, live: LiveAt) -> Result<(), OutOfMemory>
    ensures { OnOk result (regs.new.keys ≡ put_live (live_in live.entry) (move_of t.now ∷ []) regs.old.keys) }
{
    if let Transfer::Set(r, _) = t
        && live.has(*r)
    {
        put(regs, *r)?;
    }
    Ok(())
}

/// Puts the registers that the transfers set and that are live into the set.
fn put_targets(regs: &mut BTreeSet<Reg>, xs: &[Transfer], live: LiveAt) -> Result<(), OutOfMemory>
    ensures { OnOk result (regs.new.keys ≡ put_live (live_in live.entry) (moves_of xs.now) regs.old.keys) }
{
    for t in xs {
        put_target(regs, t, live)?;
    }
    Ok(())
}

/// What is live after a pair, from what is live after its second instruction: of the registers that the two set, and
/// whether `cc` is.
pub fn pair_live(alloc: Global, a: &Instr, b: &Instr, live: LiveAt) -> Result<Live, OutOfMemory>
    ensures regs { IfOk result (λ l. l.regs.keys
        ≡ put_live (live_in live.entry) (instr_of b.now) (put_live (live_in live.entry) (instr_of a.now) [])) }
    ensures cc { IfOk result (λ l. l.cc ≡ live.entry.cc) }
{
    let mut regs = BTreeSet::new(alloc);
    put_targets(&mut regs, &a.xs, live)?;
    put_targets(&mut regs, &b.xs, live)?;
    Ok(Live { regs, cc: live.cc })
}

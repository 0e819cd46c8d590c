//! What is live after each instruction of a code (docs/OPTIMISER.md, "Liveness").
//!
//! `graph` says which block may follow which; `uses` walks back through instructions; `solve` finds what is live at
//! the ends of blocks, and only that goes from block to block; `after` then walks back through each block once.
//! `parts` puts the same into one list, and needs `solve` only where something is live at the start of a block. `sets`
//! holds what is live at one place; `cc` does the same for `cc` alone, by flags.
#![tactic(auto)]

ghost use Rattle.std.specs.Prelude.{◌≡◌, ◌<◌, ◌↔◌, ℕ, IsTrue, IfOk, length};
ghost use Rattle.po_model.specs.declared.var.Var.{Var};
ghost use Rattle.po_model.specs.declared.var.Var.TheVariants.{Cc};
ghost use Rattle.po_model.specs.Blocks.{code_of, instrs_at, IsCode};
ghost use Rattle.po_model.specs.LiveAfter.{LiveAfter};
ghost use Rattle.po_model.specs.LiveSets.{holds_at, lives_at};
ghost use Rattle.po_live.specs.Flags.{flag_at, flags_at};
ghost use Rattle.po_live.specs.Parts.{tells, blocks_in, parts_in, IsLiveList};

mod after;
mod cc;
mod graph;
mod parts;
mod sets;
mod solve;
mod uses;

use after::blocks_after;
use cc::{cc_ends, flags_after};
pub use parts::{LiveAt, LiveList};
use parts::{alone, from_ends};
use po_model::{Code, Live};
use po_word::OutOfMemory;
use solve::live_out;
use std::alloc::Global;

/// What is live after each instruction, by block and index.
#[derive(Drop)]
pub struct Lives {
    pub after: Vec<Vec<Live>>,
}

/// What is live after each instruction of a code in which a control transfer stands only in the last instruction of a
/// block, or want of memory: each register and `cc` that some path from there reads before it sets it, and `fp`, which
/// is live everywhere and so is in each set (docs/OPTIMISER.md, "Liveness").
pub fn live_after(alloc: Global, c: &Code) -> Result<Lives, OutOfMemory>
    requires { IsCode (code_of c.now) }
    ensures blocks { IfOk result (λ l. length l.after.items ≡ length (code_of c.now)) }
    ensures lengths { IfOk result
        (λ l. (b : ℕ) → length (lives_at l.after.items b) ≡ length (instrs_at (code_of c.now) b)) }
    ensures live { IfOk result (λ l. (b i : ℕ) (v : Var) → i < length (instrs_at (code_of c.now) b)
        → IsTrue (holds_at (lives_at l.after.items b) i v) ↔ LiveAfter (code_of c.now) b i v) }
{
    let out = live_out(alloc, &c.blocks)?;
    let after = blocks_after(alloc, &c.blocks, &out)?;
    Ok(Lives { after })
}

/// What is live after each instruction of a code, as `live_after` has it, in one list, or want of memory
/// (docs/OPTIMISER.md, "Liveness").
pub fn live_list(alloc: Global, c: &Code) -> Result<LiveList, OutOfMemory>
    ensures list { IfOk result IsLiveList }
    ensures blocks { IfOk result (λ l. blocks_in l ≡ length (code_of c.now)) }
    ensures lengths { IfOk result (λ l. (b : ℕ) → parts_in l b ≡ length (instrs_at (code_of c.now) b)) }
    ensures live { IfOk result (λ l. (b i : ℕ) (v : Var) → i < length (instrs_at (code_of c.now) b)
        → IsTrue (tells l b i v) ↔ LiveAfter (code_of c.now) b i v) }
{
    if let Some(list) = alone(alloc, &c.blocks)? {
        return Ok(list);
    }
    let out = live_out(alloc, &c.blocks)?;
    from_ends(alloc, &c.blocks, &out)
}

/// Whether `cc` is live after each instruction, by block and index.
#[derive(Drop)]
pub struct CcLives {
    pub after: Vec<Vec<bool>>,
}

/// Whether `cc` is live after each instruction of a code, or want of memory: what `live_after` says of `cc`, for less
/// work (docs/OPTIMISER.md, "Liveness").
pub fn cc_live_after(alloc: Global, c: &Code) -> Result<CcLives, OutOfMemory>
    ensures blocks { IfOk result (λ l. length l.after.items ≡ length (code_of c.now)) }
    ensures lengths { IfOk result
        (λ l. (b : ℕ) → length (flags_at l.after.items b) ≡ length (instrs_at (code_of c.now) b)) }
    ensures live { IfOk result (λ l. (b i : ℕ) → i < length (instrs_at (code_of c.now) b)
        → IsTrue (flag_at (flags_at l.after.items b) i) ↔ LiveAfter (code_of c.now) b i Cc) }
{
    let out = cc_ends(alloc, &c.blocks)?;
    let after = flags_after(alloc, &c.blocks, &out)?;
    Ok(CcLives { after })
}

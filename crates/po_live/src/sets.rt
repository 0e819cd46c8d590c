//! Registers and `cc`: what is live at a place, while it is found. A contract says whether each one is held (`holds`).
//!
//! The registers stand in a list, since few are live at one place. None stands there twice.
ghost use Rattle.std.specs.Prelude.{◌≡◌, ◌++◌, ◌∷◌, [], ℕ, OnOk, IfOk, not, true, false, ◌||◌, ◌&&◌};
ghost use Rattle.std.specs.List.{filter};
ghost use Rattle.po_term.specs.Simplified.{reg_eq};
ghost use Rattle.po_model.specs.declared.var.Var.{Var as Variable};
ghost use Rattle.po_live.specs.Sets.{var_eq, holds, has_reg};

use po_model::Var;
use po_term::Reg;
use po_word::OutOfMemory;
use std::alloc::Global;

/// What is live at a place: registers, and whether `cc` is.
#[derive(Drop)]
pub struct LiveVars {
    pub regs: Vec<Reg>,
    pub cc: bool,
}

/// Nothing.
pub fn empty(alloc: Global) -> LiveVars
    ensures { (q : Variable) → holds result q ≡ false }
{
    LiveVars {
        regs: Vec::new(alloc),
        cc: false,
    }
}

/// Whether the register is in the list.
pub fn has_reg(regs: &[Reg], r: Reg) -> bool
    ensures { result ≡ has_reg regs.now r }
{
    regs.iter().any(|q| *q == r)
}

/// Puts v in, and says whether it is new.
pub fn insert(live: &mut LiveVars, v: Var) -> Result<bool, OutOfMemory>
    ensures all { OnOk result ((q : Variable) → holds live.new q ≡ (var_eq v q || holds live.old q)) }
    ensures new { IfOk result (λ new. new ≡ not (holds live.old v)) }
{
    match v {
        Var::Reg(r) => insert_reg(live, r),
        Var::Cc => {
            let new = !live.cc;
            live.cc = true;
            Ok(new)
        }
    }
}

fn push_reg(live: &mut LiveVars, r: Reg) -> Result<(), OutOfMemory>
    ensures regs { OnOk result (live.new.regs.items ≡ live.old.regs.items ++ r ∷ []) }
    ensures cc { live.new.cc ≡ live.old.cc }
{
    live.regs.push(r)?;
    Ok(())
}

fn insert_reg(live: &mut LiveVars, r: Reg) -> Result<bool, OutOfMemory>
    ensures all { OnOk result ((q : Variable) → holds live.new q ≡ (var_eq (Var.Reg r) q || holds live.old q)) }
    ensures new { IfOk result (λ new. new ≡ not (holds live.old (Var.Reg r))) }
{
    if has_reg(&live.regs, r) {
        Ok(false)
    } else {
        push_reg(live, r)?;
        Ok(true)
    }
}

/// Puts v in.
pub fn add(live: &mut LiveVars, v: Var) -> Result<(), OutOfMemory>
    ensures { OnOk result ((q : Variable) → holds live.new q ≡ (var_eq v q || holds live.old q)) }
{
    insert(live, v)?;
    Ok(())
}

/// Takes v out.
pub fn remove(live: &mut LiveVars, v: Var)
    ensures { (q : Variable) → holds live.new q ≡ (not (var_eq v q) && holds live.old q) }
{
    match v {
        Var::Reg(r) => remove_reg(live, r),
        Var::Cc => live.cc = false,
    }
}

fn remove_from(regs: &mut Vec<Reg>, r: Reg)
    ensures { regs.new.items ≡ filter (λ q. not (reg_eq r q)) regs.old.items }
{
    regs.retain(|q| r != *q);
}

fn remove_reg(live: &mut LiveVars, r: Reg)
    ensures { (q : Variable) → holds live.new q ≡ (not (var_eq (Var.Reg r) q) && holds live.old q) }
{
    remove_from(&mut live.regs, r);
}

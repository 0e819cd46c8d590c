//! The holes of registers and symbols that were met, and of what is live.
ghost use Rattle.std.specs.Prelude.{◌≡◌, ◌≤◌, ◌++◌, length, OnOk};
ghost use Rattle.std.specs.List.{position_or_len};
ghost use Rattle.po_term.specs.Simplified.{reg_eq};
ghost use Rattle.po_model.specs.LiveSet.{is_live};
ghost use Rattle.po_model.specs.Holed.{values_of};
ghost use Rattle.po_model.specs.Shape.{hole_register, hole_symbol, live_holes};
ghost use Rattle.po_skel.specs.Few.{HasFew};
ghost use Rattle.po_model.specs.Parts.{sym_eq};

use crate::walk::{find, find_symbol};
use po_model::{Live, PReg, Values};
use po_term::{Reg, Sym};
use po_word::OutOfMemory;

/// The registers other than virtual ones that a pair may set (docs/RULES.md, "Shapes").
pub const SETTABLE: [Reg; 5] = [Reg::Rv, Reg::Arg(0), Reg::Arg(1), Reg::Arg(2), Reg::Arg(3)];

/// The place of a register among those that were met, and their number where it isn't there.
#[tactic(auto, using(crate::proofs::Places::place_found, crate::proofs::Places::place_missing))]
fn place_of(regs: &[Reg], r: Reg) -> u16
    requires { length regs.now ≤ 65535 }
    ensures { result ≡ position_or_len (reg_eq r) regs.now }
{
    match find(regs, r) {
        Some(k) => k as u16,
        None => regs.len() as u16,
    }
}

/// The place of a symbol among those that were met, and their number where it isn't there.
#[tactic(auto, using(crate::proofs::Places::place_found, crate::proofs::Places::place_missing))]
fn place_of_symbol(syms: &[Sym], s: Sym) -> u16
    requires { length syms.now ≤ 65535 }
    ensures { result ≡ position_or_len (sym_eq s) syms.now }
{
    match find_symbol(syms, s) {
        Some(k) => k as u16,
        None => syms.len() as u16,
    }
}

/// The hole of a virtual register. Another register stays.
pub fn hole_register(v: &Values, r: Reg) -> PReg
    requires { HasFew (values_of v.now) }
    ensures { result ≡ hole_register (values_of v.now) r }
{
    if let Reg::Virt(_) = r {
        PReg::Hole(place_of(&v.regs, r))
    } else {
        PReg::Fixed(r)
    }
}

/// The hole of a symbol.
pub fn hole_symbol(v: &Values, s: Sym) -> u16
    requires { HasFew (values_of v.now) }
    ensures { result ≡ hole_symbol (values_of v.now) s }
{
    place_of_symbol(&v.syms, s)
}

/// Whether the register is live (docs/RULES.md, "Shapes").
pub fn lives(live: &Live, r: Reg) -> bool
    ensures { result ≡ is_live live.now r }
{
    live.regs.contains(&r)
}

/// Adds the holes of those of these registers that are live.
pub fn add_live(v: &Values, live: &Live, rs: &[Reg], out: &mut Vec<PReg>) -> Result<(), OutOfMemory>
    requires { HasFew (values_of v.now) }
    ensures { OnOk result (out.new.items ≡ out.old.items ++ live_holes (values_of v.now) (is_live live.now) rs.now) }
{
    for r in rs {
        if lives(live, *r) {
            out.push(hole_register(v, *r))?;
        }
    }
    Ok(())
}

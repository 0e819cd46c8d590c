//! The names of registers, labels and symbols.
ghost use Rattle.std.specs.Prelude.{◌≡◌, ◌++◌, ◌≤◌, ℕ, OnOk, OnErr, IfOk, length, drop};
ghost use Rattle.std.specs.Io.{StartsWith};
ghost use Rattle.po_model.specs.UnitCodes.{unit_of};
ghost use Rattle.po_model.specs.Placement.{machine_of};
ghost use Rattle.po_model.specs.Assembly.{name_at, register_text, label_text};
ghost use Rattle.po_emit.specs.Regs.{machine_at};

use po_assign::put_at;
use po_model::{Machine, UnitCode};
use po_name::Name;
use po_term::{Label, Reg};
use po_word::OutOfMemory;
use std::alloc::Global;

/// The machine register of each virtual register, by its number, as these pairs give them. The first pair of a virtual
/// register counts.
pub fn machine_regs(alloc: Global, pairs: &[(u32, u32)]) -> Result<Vec<u32>, OutOfMemory>
    ensures { IfOk result (λ regs. (v : ℕ) → machine_at regs.items v ≡ machine_of pairs.now v) }
{
    let mut regs = Vec::new(alloc);
    let mut i = pairs.len();
    while i > 0 {
        i -= 1;
        put_at(&mut regs, pairs[i].0, pairs[i].1)?;
    }
    Ok(regs)
}

/// The name at a place of a list, or nothing.
pub fn name_at(names: &[Name], k: usize) -> &[u8]
    ensures { result.now ≡ name_at names.now k }
{
    match names.get(k) {
        Some(name) => name.bytes(),
        None => &[],
    }
}

/// A register by its name in the description. Empty where the description has none of that number.
pub fn register_name<'a>(m: &'a Machine, regs: &[u32], r: Reg) -> &'a [u8]
    ensures { result.now ≡ register_text m.now (machine_at regs.now) r }
{
    match r {
        Reg::Virt(v) => {
            let machine = regs.get(v as usize).copied().unwrap_or(0);
            name_at(m.regs.as_slice(), machine as usize)
        }
        Reg::Fp => m.frame.bytes(),
        Reg::Rv => m.result.bytes(),
        Reg::Arg(k) => name_at(m.args.as_slice(), usize::from(k)),
    }
}

/// Writes a label: `NAME.LABEL`.
pub fn push_label(u: &UnitCode, label: Label, out: &mut Vec<u8>) -> Result<(), OutOfMemory>
    ensures ok { OnOk result (out.new.items ≡ out.old.items ++ label_text (unit_of u.now) label) }
    ensures err { OnErr result (StartsWith out.new.items out.old.items) }
{
    out.extend_from_slice(u.name.bytes())?;
    out.extend_from_slice(b".")?;
    out.extend_from_slice(name_at(&u.labels, label.0 as usize))?;
    Ok(())
}

//! A copy of a unit's code, since workers share the codes that they are given.
ghost use Rattle.std.specs.Prelude.{◌≡◌, IfOk, OnOk, ◌++◌, ◌∷◌, []};
ghost use Rattle.po_model.specs.UnitCodes.{unit_of};

use po_model::{UnitCode, copy_code};
use po_name::Name;
use po_word::{OutOfMemory, push};
use std::alloc::Global;

fn add_name(alloc: Global, names: &mut Vec<Name>, name: &Name) -> Result<(), OutOfMemory>
    ensures { OnOk result (names.new.items ≡ names.old.items ++ name.now ∷ []) }
{
    let copy = name.copy(alloc)?;
    push(names, copy)
}

/// The same names once more.
fn copy_names(alloc: Global, names: &[Name]) -> Result<Vec<Name>, OutOfMemory>
    ensures { IfOk result (λ copies. copies.items ≡ names.now) }
{
    let mut copies = Vec::new(alloc);
    for name in names {
        add_name(alloc, &mut copies, name)?;
    }
    Ok(copies)
}

/// The same code once more. It fails only where memory is refused.
pub(crate) fn copy_unit(alloc: Global, u: &UnitCode) -> Result<UnitCode, OutOfMemory>
    ensures { IfOk result (λ copy. unit_of copy ≡ unit_of u.now) }
{
    Ok(UnitCode {
        name: u.name.copy(alloc)?,
        labels: copy_names(alloc, &u.labels)?,
        syms: copy_names(alloc, &u.syms)?,
        code: copy_code(alloc, &u.code)?,
    })
}

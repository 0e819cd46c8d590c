//! Ends of blocks of a foreground.
ghost use Rattle.std.specs.Prelude.{◌≡◌, ◌<◌, length, map, All};
ghost use Rattle.po_core.specs.Went.{Went};
ghost use Rattle.po_core.specs.Fores.{HasNext, CanEnd, HasEnded, AtFore, SetFore};
ghost use Rattle.po_core.specs.Views.{fore_of, IsFormedFore};
ghost use Rattle.po_core.specs.Scans.{IsGoingAt, GoesToNext};

use crate::fore::Fore;
use crate::scans::{end_scan, next_from, ready_at};
use po_word::OutOfMemory;
use std::alloc::Global;

/// On to the next code, where the present one is finished; the snapshot is given back.
fn go_on(f: &mut Fore)
    requires formed { IsFormedFore f.old }
    requires inside { f.old.at < length f.old.scans.items }
    requires ends { HasNext f.old.ends }
    ensures goes { GoesToNext (fore_of f.old) (fore_of f.new) }
    ensures same { f.new.scans.items ≡ f.old.scans.items }
{
    f.shown = None;
    if f.scans[f.at].is_finished() {
        f.tries = 0;
        f.ends = 0;
        f.at = next_from(&f.scans, f.at + 1);
    } else {
        f.ends += 1;
    }
}

/// Passes the end of the block; false where it may not.
fn end_fore(alloc: Global, f: &mut Fore) -> Result<bool, OutOfMemory>
    requires formed { IsFormedFore f.old }
    requires going { IsGoingAt (fore_of f.old).scans f.old.at }
    ensures went { Went result (CanEnd (fore_of f.old)) (HasEnded (fore_of f.old) (fore_of f.new))
        (fore_of f.new ≡ fore_of f.old) }
    ensures formed { IsFormedFore f.new }
{
    let Some(_shown) = f.shown else {
        return Ok(false);
    };
    if f.at >= f.scans.len() {
        return Ok(false);
    }
    if ready_at(alloc, &f.scans, f.at)?.is_some() {
        return Ok(false);
    }
    if f.ends == u64::MAX {
        return Ok(false);
    }
    end_scan(alloc, &mut f.scans, f.at)?;
    go_on(f);
    Ok(true)
}

/// The foreground of that number passes the end of the block; false where it may not.
pub fn end_at(alloc: Global, fores: &mut [Fore], fore: usize) -> Result<bool, OutOfMemory>
    requires formed { All IsFormedFore fores.old }
    requires going { All (λ f. IsGoingAt f.scans f.at) (map fore_of fores.old) }
    ensures went { Went result (AtFore (map fore_of fores.old) fore CanEnd)
        (SetFore (map fore_of fores.old) fore HasEnded (map fore_of fores.new))
        (map fore_of fores.new ≡ map fore_of fores.old) }
    ensures formed { All IsFormedFore fores.new }
{
    if fore >= fores.len() {
        return Ok(false);
    }
    end_fore(alloc, &mut fores[fore])
}

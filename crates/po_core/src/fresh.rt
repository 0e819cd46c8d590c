//! Foregrounds before their first block, and learners that hold nothing.
ghost use Rattle.std.specs.Prelude.{◌≡◌, ◌++◌, ◌∷◌, [], None, map, length, All, IfOk, OnOk};
ghost use Rattle.po_model.specs.Blocks.{code_of};
ghost use Rattle.po_model.specs.UnitCodes.{IsFormedCode};
ghost use Rattle.po_model.specs.Scanned.{IsPassStart};
ghost use Rattle.po_slow.specs.States.{scan_of, IsFormedState};
ghost use Rattle.po_core.specs.Parts.{AreFresh, IsNewFore, AreNewFores};
ghost use Rattle.po_core.specs.Views.{fore_of, held_of, codes_of, IsFormedFore};

use crate::fore::Fore;
use crate::scans::next_from;
use po_model::{Code, Pair, copy_code};
use po_slow::ScanState;
use po_word::{OutOfMemory, push};
use std::alloc::Global;
use std::collections::VecDeque;

/// The start of the first pass over a copy of the code.
fn new_scan(alloc: Global, c: &Code) -> Result<ScanState, OutOfMemory>
    requires { IsFormedCode (code_of c.now) }
    ensures fresh { IfOk result (λ s. IsPassStart (code_of c.now) (scan_of s)) }
    ensures formed { IfOk result IsFormedState }
{
    let copy = copy_code(alloc, c)?;
    ScanState::new(alloc, copy)
}

/// The start of the first pass over each code.
fn new_scans(alloc: Global, codes: &[Code]) -> Result<Vec<ScanState>, OutOfMemory>
    requires { All IsFormedCode (map code_of codes.now) }
    ensures fresh { IfOk result (λ scans. AreFresh (map code_of codes.now) (map scan_of scans.items)) }
    ensures formed { IfOk result (λ scans. All IsFormedState scans.items) }
{
    let mut scans = Vec::new(alloc);
    for c in codes {
        push(&mut scans, new_scan(alloc, c)?)?;
    }
    Ok(scans)
}

/// A foreground that has these codes to scan.
fn new_fore(alloc: Global, codes: Vec<Code>) -> Result<Fore, OutOfMemory>
    requires { All IsFormedCode (codes_of codes) }
    ensures is_new { IfOk result (λ f. IsNewFore (codes_of codes) (fore_of f)) }
    ensures formed { IfOk result IsFormedFore }
{
    let scans = new_scans(alloc, &codes)?;
    let at = next_from(&scans, 0);
    Ok(Fore {
        given: codes,
        scans,
        at,
        tries: 0,
        ends: 0,
        shown: None,
        unposted: VecDeque::new(alloc),
        hits: 0,
        misses: 0,
        posted: 0,
        dropped: 0,
    })
}

/// A foreground for each of these lists of codes.
pub fn new_fores(alloc: Global, units: Vec<Vec<Code>>) -> Result<Vec<Fore>, OutOfMemory>
    requires { All (All IsFormedCode) (map codes_of units.items) }
    ensures are_new { IfOk result (λ fores. AreNewFores (map codes_of units.items) (map fore_of fores.items)) }
    ensures formed { IfOk result (λ fores. All IsFormedFore fores.items) }
{
    let mut fores = Vec::new(alloc);
    for codes in units {
        push(&mut fores, new_fore(alloc, codes)?)?;
    }
    Ok(fores)
}

/// So many learners that hold nothing.
pub fn new_learners(alloc: Global, learners: usize) -> Result<Vec<Option<Pair>>, OutOfMemory>
    ensures many { IfOk result (λ held. length held.items ≡ learners) }
    ensures none { IfOk result (λ held. All (λ o. o ≡ None) (map held_of held.items)) }
{
    let mut held = Vec::new(alloc);
    'learners: while held.len() < learners {
        push(&mut held, None)?;
    }
    Ok(held)
}

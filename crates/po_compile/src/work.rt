//! What has become of the units so far: their assembly, or the first of them that is crowded.
ghost use Rattle.std.specs.Prelude.{◌≡◌, ◌++◌, ◌∷◌, [], None, List, length, true, IfOk, OnOk};
ghost use Rattle.po_model.specs.Machines.{IsMachine};
ghost use Rattle.po_model.specs.UnitCodes.{PlainUnit, unit_of, IsUnitCode};
ghost use Rattle.po_compile.specs.Output.{AllFit};
ghost use Rattle.po_compile.specs.Turns.{IsTarget, HaveCome};

use crate::target::Target;
use po_assign::{AssignRefusal, assign};
use po_emit::emit_by;
use po_model::UnitCode;
use po_word::OutOfMemory;
use std::alloc::Global;

/// The first point of a unit that needs more registers than there are, and how many it needs. All three are counted
/// from 0.
#[derive(Clone, Copy)]
pub struct Crowd {
    pub unit: u32,
    pub point: u32,
    pub needed: u32,
}

/// The assembly of the units so far, and the first crowd among them. Behind a crowd nothing is written.
#[derive(Drop)]
pub struct Work {
    pub out: Vec<u8>,
    pub crowd: Option<Crowd>,
}

/// No unit yet.
pub fn no_work(alloc: Global) -> Work
    ensures crowd { result.crowd ≡ None }
    ensures out { result.out.items ≡ [] }
{
    Work {
        out: Vec::new(alloc),
        crowd: None,
    }
}

impl Work {
    /// Places the code of a unit and writes it, or notes its crowd. Says whether each of its instructions was seen to fit
    /// an entry.
    fn place(
        &mut self,
        alloc: Global,
        target: &Target,
        unit: u32,
        code: UnitCode,
    ) -> Result<bool, OutOfMemory>
        requires machine { IsMachine target.now.machine }
        requires target { IsTarget target.now }
        requires formed { IsUnitCode (unit_of code) }
        ensures come { (made : List PlainUnit) → length made ≡ unit
            → self.old.crowd ≡ None → HaveCome target.now.machine made self.old
            → OnOk result (HaveCome target.now.machine (made ++ unit_of code ∷ []) self.new) }
        ensures fits { IfOk result (λ fits. fits ≡ true → AllFit target.now.machine (unit_of code)) }
    {
        match assign(alloc, &target.machine, code) {
            Ok(placed) => {
                let fits = emit_by(
                    alloc,
                    &target.machine,
                    &target.index,
                    &target.templates,
                    &placed,
                    &mut self.out,
                )?;
                Ok(fits)
            }
            Err(AssignRefusal::TooFew { point, needed }) => {
                self.crowd = Some(Crowd {
                    unit,
                    point,
                    needed,
                });
                Ok(false)
            }
            Err(AssignRefusal::OutOfMemory) => Err(OutOfMemory),
        }
    }

    /// Takes in the code of the next unit: behind a crowd it is given back as it came. Says whether each of its
    /// instructions was seen to fit an entry.
    pub fn add(
        &mut self,
        alloc: Global,
        target: &Target,
        unit: u32,
        code: UnitCode,
    ) -> Result<bool, OutOfMemory>
        requires machine { IsMachine target.now.machine }
        requires target { IsTarget target.now }
        requires formed { IsUnitCode (unit_of code) }
        ensures come { (made : List PlainUnit) → length made ≡ unit → HaveCome target.now.machine made self.old
            → OnOk result (HaveCome target.now.machine (made ++ unit_of code ∷ []) self.new) }
        ensures fits { IfOk result (λ fits. fits ≡ true → AllFit target.now.machine (unit_of code)) }
    {
        if self.crowd.is_some() {
            return Ok(false);
        }
        self.place(alloc, target, unit, code)
    }
}

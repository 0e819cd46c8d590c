//! One worker.
ghost use Rattle.std.specs.Prelude.{◌≡◌, ◌≤◌, [], IfOk};
ghost use Rattle.po_pool.specs.Worked.{IsThrough};

use crate::job::Job;
use po_word::OutOfMemory;
use std::alloc::Global;

/// What a worker gives back.
#[derive(Drop)]
pub struct Worked<S: Drop, O: Drop> {
    pub seat: S,
    pub outs: Vec<O>,
}

/// The worker at this place goes through the units from one index up to another.
pub fn work<J: Job>(
    alloc: Global,
    job: &J,
    seat: J::Seat,
    place: u32,
    from: u32,
    to: u32,
) -> Result<Worked<J::Seat, J::Out>, OutOfMemory>
    requires range { (from ≤ to) × (to ≤ J.count job.now) }
    requires good { J.good job.now place seat [] }
    ensures { IfOk result (λ r. IsThrough (J.good job.now) (J.gives job.now) place from to r.seat r.outs.items) }
{
    let mut seat = seat;
    let mut outs = Vec::new(alloc);
    for index in from..to {
        outs.reserve(1)?;
        let out = job.unit(alloc, &mut seat, place, outs.as_slice(), index)?;
        outs.push_reserved(out);
    }
    Ok(Worked { seat, outs })
}

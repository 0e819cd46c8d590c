//! What is made once of a machine, for all units.
ghost use Rattle.std.specs.Prelude.{◌≡◌, IfOk};
ghost use Rattle.po_compile.specs.Turns.{IsTarget};

use po_emit::Templates;
use po_model::Machine;
use po_recog::Index;
use po_word::OutOfMemory;
use std::alloc::Global;

/// A machine, the index of its entries, and their lines.
#[derive(Drop)]
pub struct Target {
    pub machine: Machine,
    pub index: Index,
    pub templates: Templates,
}

impl Target {
    /// The index and the lines of a machine.
    pub fn new(alloc: Global, machine: Machine) -> Result<Target, OutOfMemory>
        ensures machine { IfOk result (λ t. t.machine ≡ machine) }
        ensures target { IfOk result IsTarget }
    {
        let index = Index::new(alloc, &machine)?;
        let templates = Templates::new(alloc, &machine)?;
        Ok(Target {
            machine,
            index,
            templates,
        })
    }
}

//! Which store it is, as a type: what knows of one history names it.

use std::marker::Brand;
use std::sync::ledger::Ledger;

/// Names a store: its history, the machine that its tables are for, and, as a ledger, how the count of what was
/// learned is shared (docs/LEARNING.md, "The store").
pub trait StoreName: Ledger {
    ghost use Rattle.logbook.specs.Pages.{Book};
    ghost use Rattle.po_model.specs.declared.machine.Machine.{Machine};

    ghost book: { Book };

    ghost machine: { Machine };
}

impl StoreName for Brand {
    ghost use Rattle.po_store.specs.Names.{any_machine};

    ghost book = { record { number = 0; log_name = 0; cells_name = 0 } };

    ghost machine = { any_machine };
}

//! What is promised of every list of events, as contracts of functions that do nothing.
ghost use Rattle.po_core.specs.Parts.{EventsKeepParts, EventsOfNewCoresKeepParts};

/// From any state that has the parts, every list of events leads to one that has them, whether or not each is allowed
/// (docs/LEARNING.md, "Every list of events").
pub fn events_keep_parts()
    ensures { EventsKeepParts }
{}

/// Every list of events of a new core leads to a state that has the parts (docs/LEARNING.md, "Every list of events").
pub fn events_of_new_cores_keep_parts()
    ensures { EventsOfNewCoresKeepParts }
{}

//! What is told of a run while it goes on. A test may hold a thread there; the program does nothing.

/// Where a run stands (docs/LEARNING.md, "The gate").
#[derive(Clone, Copy, Debug, Drop, PartialEq, Eq)]
pub enum Place {
    /// A worker begins the unit of this index.
    UnitStart(u32),
    /// A worker has ended the unit of this index.
    UnitEnd(u32),
    /// A learner has taken a turn of the publisher's lock.
    Published,
}

/// It is told each place that a run comes to. It answers nothing, and the run uses nothing of it (docs/LEARNING.md,
/// "The gate").
pub trait Gate {
    /// The run is at this place. It may wait.
    fn at(&self, place: Place);
}

/// The gate that does nothing (docs/LEARNING.md, "The gate").
#[derive(Clone, Copy, Debug, Drop)]
pub struct Open;

impl Gate for Open {
    fn at(&self, _place: Place) {}
}

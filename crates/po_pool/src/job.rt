//! What workers and learners do.
ghost use Rattle.std.specs.Prelude.{◌≡◌, ℕ, ◌<◌, List, [], ◌∷◌, ◌++◌, IfOk};

use po_word::OutOfMemory;
use std::alloc::Global;

/// The work of the workers: units, each of which gives a result. A worker's seat has what it keeps from unit to unit
/// (docs/LEARNING.md, "The pool").
pub trait Job: Sync {
    /// What a worker keeps.
    type Seat: Send + Drop;

    /// What a unit gives.
    type Out: Send + Drop;

    /// How many units there are.
    ghost count: { Self → ℕ };

    /// The seat is good for its place in the list of seats and for the results that it gave so far, in order.
    ghost good: { Self → ℕ → Self.Seat → List Self.Out → Type 0 };

    /// The result is what is promised for the unit of this index.
    ghost gives: { Self → ℕ → Self.Out → Type 0 };

    /// The result of a unit, by the seat of this place, which has given these results (docs/LEARNING.md, "The pool").
    /// It fails only where memory is refused; then nothing is said of the seat. It may wait.
    fn unit(
        &self,
        alloc: Global,
        seat: &mut Self::Seat,
        place: u32,
        done: &[Self::Out],
        index: u32,
    ) -> Result<Self::Out, OutOfMemory>
        requires index { index < count self.now }
        requires good { good self.now place seat.old done.now }
        ensures gives { IfOk result (λ o. gives self.now index o) }
        ensures good { IfOk result (λ o. good self.now place seat.new (done.now ++ o ∷ [])) };
}

/// What a turn of a learner did (docs/LEARNING.md, "The pool").
#[derive(Clone, Copy, Debug, Drop, PartialEq, Eq)]
pub enum Turn {
    /// Something was learned.
    Learned,
    /// There was nothing to learn.
    Nothing,
}

/// The work of the learners: turns, as long as there is something to learn. A learner's seat has what it keeps from
/// turn to turn (docs/LEARNING.md, "The pool").
pub trait Study: Sync {
    /// What a learner keeps.
    type Seat: Send + Drop;

    /// The seat is good for its place in the list of seats.
    ghost good: { Self → ℕ → Self.Seat → Type 0 };

    /// A turn, by the seat of this place (docs/LEARNING.md, "The pool"). It fails only where memory is refused; the
    /// seat is good then too. It may wait.
    fn turn(&self, alloc: Global, seat: &mut Self::Seat, place: u32) -> Result<Turn, OutOfMemory>
        requires good { good self.now place seat.old }
        ensures good { good self.now place seat.new };
}

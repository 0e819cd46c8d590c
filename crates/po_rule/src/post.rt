//! Where misses go.
ghost use Rattle.std.specs.Prelude.{◌≡◌, ℕ, ◌≤◌, List};
ghost use Rattle.po_model.specs.Pairs.{PlainPair, pair_of};
ghost use Rattle.po_rule.specs.Posts.{with_posted, HasCause};

use crate::miss::Miss;

/// What became of a miss that was posted (docs/LEARNING.md, "A worker's unit").
#[derive(Clone, Copy, Debug, Drop, PartialEq, Eq)]
pub enum Posted {
    /// It was taken.
    Taken,
    /// There was no room, and it was dropped.
    Dropped,
}

/// Where misses go. Contracts see the pairs that it took, in order, and how often it was full, a count of 64 bits at
/// most, which never falls. They see further a value of the implementer's own, which stays (docs/LEARNING.md,
/// "A worker's unit").
pub trait Post {
    ghost Home: { Type 0 };

    ghost taken: { Self → List PlainPair };

    ghost fulls: { Self → ℕ };

    ghost home: { Self → Home };

    /// Posts a miss, which is taken as the last one or dropped. It is dropped only where the post was full
    /// (docs/LEARNING.md, "A worker's unit"). It may wait.
    fn post(&mut self, miss: Miss) -> Posted
        ensures taken { taken self.new ≡ with_posted result (pair_of miss) (taken self.old) }
        ensures cause { HasCause result (fulls self.old) (fulls self.new) }
        ensures never_falls { fulls self.old ≤ fulls self.new }
        ensures home { home self.new ≡ home self.old };
}

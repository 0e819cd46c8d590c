//! The events, and why one isn't made.

use po_rule::Learned;

/// An event of the foreground, or of the learner, of that number (docs/LEARNING.md, "The events").
#[derive(Drop)]
pub enum Event {
    /// The foreground takes a snapshot, which shows so many published rules.
    Begin { fore: usize, shown: usize },
    /// It looks up the pair that stands ready.
    Try { fore: usize },
    /// It passes the end of the block, and gives the snapshot back.
    End { fore: usize },
    /// Its first unposted miss goes to the back of the queue.
    Post { fore: usize },
    /// Its first unposted miss is dropped, since the queue is full.
    Drop { fore: usize },
    /// The learner takes the front of the queue.
    Take { learner: usize },
    /// The learner has learned a rule from the pair that it holds.
    Learn { learner: usize, learned: Learned },
    /// The pending rules are published.
    Publish,
}

/// Why an event isn't made (docs/LEARNING.md, "The events").
#[derive(Drop)]
pub enum StepRefusal {
    /// It isn't allowed, and comes back.
    NotAllowed(Event),
    /// Memory is wanting.
    OutOfMemory,
}

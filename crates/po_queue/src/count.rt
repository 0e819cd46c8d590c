//! A count of all puts, under a rule of its own: a pass that saw the count knows that so many items were put.
ghost use Rattle.std.specs.Prelude.{◌≡◌, ℕ, ◌+◌, ◌-◌, [], ◌∷◌, ◌++◌};

use atomic_table::{Join, Split};
use crossbeam_utils::atomic::seq_cell::RuledSeqCell;
use crossbeam_utils::rule::{Outcome, Protocol};

/// How many puts a pass has told of, and a number that it saw the count at. No value of it is made.
pub struct Tally {
    pub parts: u64,
    pub told: u64,
    pub seen: u64,
}

/// The count is what all passes told of, and never falls.
pub struct Counting;

/// The count, one word.
pub type Count = RuledSeqCell<[u64; 1], Tally, Counting, 1>;

impl Protocol<[u64; 1], Tally> for Counting {
    ghost use Rattle.po_queue.specs.Balance.{all_parts};
    ghost use Rattle.po_queue.specs.Count.{tally_of, Counted};

    ghost holds = { Counted };

    ghost first = { tally_of all_parts 0 0 };
}

/// A step that tells of a put.
pub struct Tells;

impl Outcome<[u64; 1], Tally> for Tells {
    ghost use Rattle.po_queue.specs.Count.{Told};

    ghost then = { Told };
}

/// A step that sees the count.
pub struct Sees;

impl Outcome<[u64; 1], Tally> for Sees {
    ghost use Rattle.po_queue.specs.Count.{Seen};

    ghost then = { Seen };
}

/// A step that compares the count with what the pass knows.
pub struct Audits;

impl Outcome<[u64; 1], Tally> for Audits {
    ghost use Rattle.po_queue.specs.Count.{Audited};

    ghost then = { Audited };
}

/// One part goes to a pass that has told of nothing.
pub struct Cut;

impl Split<Tally> for Cut {
    ghost use Rattle.std.specs.Prelude.{◌-◌};
    ghost use Rattle.po_queue.specs.Count.{tally_of};

    ghost left = { λ v. tally_of (v.parts - 1) v.told v.seen };

    ghost right = { λ v. tally_of 1 0 0 };
}

/// Everything goes to a new pass, which has made no call: only such a one can be joined to another.
pub struct Whole;

impl Split<Tally> for Whole {
    ghost use Rattle.po_queue.specs.Count.{tally_of};

    ghost left = { λ v. tally_of 0 0 0 };

    ghost right = { λ v. v };
}

impl Join<Tally> for Whole {
    ghost use Rattle.std.specs.Prelude.{◌+◌, max};
    ghost use Rattle.po_queue.specs.Count.{tally_of};

    ghost both = { λ v w. tally_of (v.parts + w.parts) (v.told + w.told) (max v.seen w.seen) };

    ghost spent = { tally_of 0 0 0 };
}

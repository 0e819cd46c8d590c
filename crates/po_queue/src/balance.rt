//! The rule of what the queue holds, over what each pass has put and taken.
ghost use Rattle.std.specs.Prelude.{◌≡◌, ℕ, ◌+◌, ◌-◌, [], ◌∷◌, ◌++◌};
ghost use Rattle.std.specs.List.{sum_by};

use crossbeam_queue::protocol::{Join, Lesson, Outcome, Protocol, Split};
use std::collections::LinkedList;

/// What a pass has put and taken, and how many parts it has of the right to know the whole. No value of it is made.
pub struct Account<T> {
    pub parts: u64,
    pub put: LinkedList<T>,
    pub taken: LinkedList<T>,
}

/// What was put by all passes is what was taken by them and what the queue holds.
pub struct Balance;

impl<T> Protocol<T, Account<T>> for Balance {
    ghost use Rattle.std.specs.Prelude.{[]};
    ghost use Rattle.po_queue.specs.Balance.{account, all_parts, Balanced};

    ghost holds = { Balanced };

    ghost first = { account all_parts [] [] };
}

/// One part goes to a pass that has put and taken nothing.
pub struct Cut;

impl<T> Split<Account<T>> for Cut {
    ghost use Rattle.std.specs.Prelude.{[], ◌-◌};
    ghost use Rattle.po_queue.specs.Balance.{account};

    ghost left = { λ v. account (v.parts - 1) v.put v.taken };

    ghost right = { λ v. account 1 [] [] };
}

impl<T> Join<Account<T>> for Cut {
    ghost use Rattle.std.specs.Prelude.{[], ◌+◌, ◌++◌};
    ghost use Rattle.po_queue.specs.Balance.{account};

    ghost both = { λ v w. account (v.parts + w.parts) (v.put ++ w.put) (v.taken ++ w.taken) };

    ghost spent = { account 0 [] [] };
}

/// An item is put.
pub struct Puts;

impl<T> Outcome<T, Account<T>> for Puts {
    ghost use Rattle.std.specs.Prelude.{◌≡◌, [], ◌∷◌, ◌++◌};
    ghost use Rattle.po_queue.specs.Balance.{account};

    ghost then = { λ v x w. w ≡ account v.parts (v.put ++ x ∷ []) v.taken };
}

/// An item is taken.
pub struct Takes;

impl<T> Outcome<T, Account<T>> for Takes {
    ghost use Rattle.std.specs.Prelude.{◌≡◌, [], ◌∷◌, ◌++◌};
    ghost use Rattle.po_queue.specs.Balance.{account};

    ghost then = { λ v x w. w ≡ account v.parts v.put (v.taken ++ x ∷ []) };
}

impl<T> Lesson<T, Account<T>> for Puts {
    ghost use Rattle.po_queue.specs.Balance.{MomentOf};

    ghost fact = { MomentOf };
}

impl<T> Lesson<T, Account<T>> for Takes {
    ghost use Rattle.po_queue.specs.Balance.{MomentOf};

    ghost fact = { MomentOf };
}

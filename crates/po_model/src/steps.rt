//! A count of steps that were taken.
ghost use Rattle.std.specs.Prelude.{◌≡◌, ◌<◌, ◌+◌};

use std::marker::Model;
use std::sync::ledger::{Blank, Book, Ledger, Share};

/// How many steps were taken since it was made. Contracts see a `Steps` as that number. It takes no bytes, and a step
/// takes no time.
#[derive(Drop)]
pub struct Steps<L: Ledger> {
    all: Book<L>,
    mine: Share<L>,
}

impl<L: Ledger> Model for Steps<L> {
    ghost use Rattle.std.specs.Prelude.{ℕ, ◌<◌};

    ghost Value = { ℕ };

    ghost view = { λ s. s.all.total };

    ghost invariant = { λ s. 0 < s.mine.parts };
}

impl<L: Ledger> Steps<L> {
    /// No step, over the new ledger L, whose name and parts `ledger` has. `parts` says into how many parts the shares
    /// of the ledger are cut, and is above 0.
    pub fn new(ledger: Blank) -> Steps<L>
        requires name { ledger.name ≡ L.name }
        requires parts { ledger.parts ≡ L.parts }
        requires some { 0 < ledger.parts }
        ensures { result ≡ 0 }
    {
        let (all, mine) = ledger.open::<L>();
        Steps { all, mine }
    }

    /// One step more.
    pub fn tick(&mut self)
        ensures { self.new ≡ self.old + 1 }
    {
        let Steps { all, mine } = self;
        all.add(mine, 1);
    }
}

//! The history of a store: the rules that were published, in their order. It exists in proofs alone; what threads
//! share of it is one word, its length.
ghost use Rattle.std.specs.Prelude.{◌≡◌, ◌+◌, ◌==◌, ◌<◌, ◌≤◌, ◌^◌, ◌++◌, ◌∷◌, ◌⊎◌, [], length, MatchBool, IsTrue};
ghost use mathlib.Core.List.{IsPrefix};
ghost use Rattle.po_store.specs.Histories.{IsLonger, head_of};

use crate::name::StoreName;
use logbook::{Gain, Offer, Plain, Play, Seen, Start, Word};
use po_model::Rule;
use std::marker::{Model, PhantomData};

/// The rule of the book in which the history stands: the word is the length of the history.
pub struct Lengthening;

impl logbook::Rule<Rule, u64> for Lengthening {
    ghost use Rattle.std.specs.Prelude.{[]};
    ghost use base.Fml.{ftrue};
    ghost use Rattle.po_store.specs.Histories.{IsKept};

    ghost holds = { λ cells history. IsKept cells history };

    ghost first = { [] };

    ghost hinted = { λ n history. Unit {0} };

    ghost shows = { λ history. [] };

    ghost keeps = { λ names history. ftrue };

    ghost moves = { λ ask before after answer. Unit {0} };
}

/// Callers of the book trade nothing.
pub struct Nothing;

impl Gain<Rule, u64> for Nothing {
    ghost use base.Fml.{ftrue};

    ghost after = { λ names about answer. ftrue };
}

/// A step that adds a rule.
pub struct Add;

impl Play<Rule, u64> for Add {
    ghost use Rattle.po_store.specs.Histories.{Adds};

    ghost then = { Adds };
}

impl Plain<Rule, Rule, u64> for Add {
    ghost use Rattle.std.specs.Prelude.{None};

    ghost ask = { λ r. r };

    ghost state = { λ r. None };
}

/// A new history, without a rule, which no store has yet (docs/LEARNING.md, "The store").
#[derive(Drop)]
pub struct Opened {
    head: Word<Rule, u64, Lengthening>,
    seen: Seen<Rule, u64, Lengthening>,
    pub ghost empty: { seen.log ≡ [] },
    pub ghost head_is: { head ≡ head_of seen.book },
}

impl Opened {
    /// A new history (docs/LEARNING.md, "The store").
    pub fn new() -> Opened {
        let (seen, mut first, _second) = Seen::open(Start::alone(), 0, 0);
        Opened {
            head: Word::tracked(0, &mut first),
            seen,
        }
    }

    /// The history's word under the store's name, and the front that has seen no rule.
    pub(crate) fn named<L: StoreName>(self) -> (Head<L>, Front<L>)
        requires { self.seen.book ≡ L.book }
        ensures { result.1 ≡ [] }
    {
        let Opened { head, seen } = self;
        (
            Head {
                head,
                of: PhantomData,
            },
            Front {
                rules: 0,
                seen,
                of: PhantomData,
            },
        )
    }
}

/// The word that all threads share: the length of the history.
#[derive(Drop)]
pub struct Head<L: StoreName> {
    head: Word<Rule, u64, Lengthening>,
    of: PhantomData<L>,
    ghost head_is: { head ≡ head_of L.book },
}

/// A beginning of the history that was seen. Contracts see it as its rules.
#[derive(Drop)]
pub struct Front<L: StoreName> {
    rules: u64,
    seen: Seen<Rule, u64, Lengthening>,
    of: PhantomData<L>,
}

impl<L: StoreName> Model for Front<L> {
    ghost use Rattle.std.specs.Prelude.{◌≡◌, List, length};
    ghost use Rattle.std.specs.Coded.{codes};
    ghost use Rattle.po_word.specs.contracts.expression.CExpr as expr;
    ghost use Rattle.po_model.specs.contracts.hole.PTerm as term;
    ghost use Rattle.po_model.specs.declared.rule.Rule.{Rule as OneRule};

    ghost Value = { List OneRule };

    ghost coded = { Prim.hlevel (codes, term.the_row.coded, expr.the_row.coded) };

    ghost view = { λ f. f.seen.log };

    ghost invariant = { λ f. (f.rules ≡ length f.seen.log) × (f.seen.book ≡ L.book) };
}

impl<L: StoreName> Front<L> {
    /// How many rules it has.
    pub(crate) fn len(&self) -> u64
        ensures { result ≡ length self.now }
    {
        self.rules
    }

    /// A copy.
    pub(crate) fn again(&self) -> Front<L>
        ensures { result ≡ self.now }
    {
        Front {
            rules: self.rules,
            seen: self.seen.again(),
            of: PhantomData,
        }
    }

    /// The longer of two fronts, which the other begins.
    pub(crate) fn longer(&self, other: &Front<L>) -> Front<L>
        ensures one { (result ≡ self.now) ⊎ (result ≡ other.now) }
        ensures this { IsPrefix self.now result }
        ensures that { IsPrefix other.now result }
    {
        let mut both = self.seen.again();
        both.learn(&other.seen);
        if self.rules < other.rules {
            other.again()
        } else {
            self.again()
        }
    }

    /// Whether it is no longer than the other, which then begins with it.
    pub(crate) fn begins(&self, other: &Front<L>) -> bool
        ensures { IsTrue result → IsPrefix self.now other.now }
    {
        let mut both = self.seen.again();
        both.learn(&other.seen);
        if other.rules < self.rules {
            return false;
        }
        true
    }

    /// Adds a rule behind all that was seen, and says whether it did. It did not where the history is longer.
    pub(crate) fn add(&mut self, head: &Head<L>, rule: &Rule) -> bool
        requires room { length self.old < 2 ^ 62 }
        ensures { MatchBool result (self.new ≡ self.old ++ rule.now ∷ []) (IsLonger self.old self.new) }
    {
        let mut offer: Offer<Rule, u64, Lengthening, Nothing> = self
            .seen
            .plain::<Nothing, Rule, Add>(rule);
        let mut pen = self.seen.no_pen();
        let rules = self.rules;
        let found = head
            .head
            .compare_exchange::<Add, Nothing>(
                rules,
                rules + 1,
                &mut self.seen,
                &mut offer,
                &mut pen,
            );
        self.rules = if found == rules { rules + 1 } else { found };
        found == rules
    }
}

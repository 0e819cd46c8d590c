//! Hits that are looked up once more, each rule once. A rule's hits are counted as such only where it is published: what
//! a thread saw and what the publisher has is compared by no clause, so each rule is looked up again behind the join.
ghost use Rattle.std.specs.Prelude.{ℕ, ◌≡◌, ◌+◌, ◌++◌, ◌∷◌, [], true, false, map, All, length, IfOk, OnOk};
ghost use Rattle.std.specs.Arc.{arc_value};
ghost use Rattle.po_model.specs.Lookups.{AreCanonical, NoneFits};
ghost use Rattle.po_model.specs.Pairs.{pair_of, WellFormedPair};
ghost use Rattle.po_tally.specs.Tallies.{count_in};
ghost use Rattle.po_opt.specs.Told.{IsHit, IsTally};
ghost use Rattle.po_opt.specs.Relooked.{HasRule, IsFound, IsLost, IsAdded, ArePut, AreRelooked};

use crate::copies::copies_of;
use crate::counts::added;
use po_crew::{Sent, post_all};
use po_fore::Hit;
use po_model::Pair;
use po_rule::{Lookup, Post};
use po_tally::Tally;
use po_word::{OutOfMemory, push};
use std::alloc::Global;

/// Hits that were looked up once more, and what became of those that weren't found (docs/LEARNING.md, "Behind the
/// join").
#[derive(Drop)]
pub struct Relooked {
    /// A hit of each rule that is published.
    pub hits: Vec<Hit>,
    /// How many hits these rules made.
    pub found: u64,
    /// A pair of each rule that isn't.
    pub lost: Vec<Pair>,
    /// How many of the new misses the post took.
    pub taken: u64,
    /// How many it dropped.
    pub dropped: u64,
}

/// Whether a rule of the list has the hit's pair as an instance: if so, it is the hit's rule.
fn has_rule<T: Lookup>(alloc: Global, rules: &T, hit: &Hit) -> Result<bool, OutOfMemory>
    requires canonical { AreCanonical (T.machine rules.now) (T.rules rules.now) }
    requires hit { IsHit (T.machine rules.now) hit.now }
    ensures found { IfOk result (λ b. b ≡ true → HasRule (T.rules rules.now) hit.now) }
    ensures none { IfOk result (λ b. b ≡ false → NoneFits (T.rules rules.now) (pair_of hit.now.pair)) }
{
    match rules.look(alloc, &hit.pair)? {
        Some(_) => Ok(true),
        None => Ok(false),
    }
}

/// Posts a pair so often.
fn post_again<P: Post>(
    alloc: Global,
    post: &mut P,
    pair: &Pair,
    more: u64,
) -> Result<Sent, OutOfMemory>
    requires formed { WellFormedPair (pair_of pair.now) }
    ensures put { IfOk result (λ s. ArePut (P.taken post.old) (P.taken post.new) (P.fulls post.old)
        (P.fulls post.new) s.taken s.dropped) }
    ensures all { IfOk result (λ s. s.taken + s.dropped ≡ 1 + more) }
    ensures home { P.home post.new ≡ P.home post.old }
{
    let copies = copies_of(alloc, pair, more)?;
    post_all(alloc, post, &copies)
}

fn push_hit(hits: &mut Vec<Hit>, hit: Hit) -> Result<(), OutOfMemory>
    ensures { OnOk result (hits.new.items ≡ hits.old.items ++ hit ∷ []) }
{
    push(hits, hit)
}

fn push_pair(pairs: &mut Vec<Pair>, pair: Pair) -> Result<(), OutOfMemory>
    ensures { OnOk result (pairs.new.items ≡ pairs.old.items ++ pair ∷ []) }
{
    push(pairs, pair)
}

impl Relooked {
    /// Nothing yet.
    fn new(alloc: Global) -> Relooked
        ensures hits { result.hits.items ≡ [] }
        ensures found { result.found ≡ 0 }
        ensures lost { result.lost.items ≡ [] }
        ensures taken { result.taken ≡ 0 }
        ensures dropped { result.dropped ≡ 0 }
    {
        Relooked {
            hits: Vec::new(alloc),
            found: 0,
            lost: Vec::new(alloc),
            taken: 0,
            dropped: 0,
        }
    }

    /// Hits by one rule more, which is found.
    fn find(&mut self, tally: Tally) -> Result<(), OutOfMemory>
        ensures { OnOk result (IsFound tally self.old self.new) }
    {
        let count = added(1, tally.more)?;
        self.found = added(self.found, count)?;
        push_hit(&mut self.hits, tally.hit)
    }

    /// Hits by one rule more, which isn't found. Each was sent as a miss.
    fn lose(&mut self, tally: Tally, sent: Sent) -> Result<(), OutOfMemory>
        ensures { OnOk result (IsLost tally sent.taken sent.dropped self.old self.new) }
    {
        self.taken = added(self.taken, sent.taken)?;
        self.dropped = added(self.dropped, sent.dropped)?;
        push_pair(&mut self.lost, tally.hit.pair)
    }
}

/// Looks the hits by one rule up once more: where the rule isn't found each is posted as a miss.
fn relook_one<T: Lookup, P: Post>(
    alloc: Global,
    rules: &T,
    post: &mut P,
    tally: Tally,
    done: &mut Relooked,
) -> Result<(), OutOfMemory>
    requires canonical { AreCanonical (T.machine rules.now) (T.rules rules.now) }
    requires tally { IsTally (T.machine rules.now) tally }
    ensures added { OnOk result (IsAdded (T.rules rules.now) tally done.old done.new
        (P.taken post.old) (P.taken post.new) (P.fulls post.old) (P.fulls post.new)) }
    ensures home { P.home post.new ≡ P.home post.old }
{
    if has_rule(alloc, rules, &tally.hit)? {
        return done.find(tally);
    }
    let sent = post_again(alloc, post, &tally.hit.pair, tally.more)?;
    done.lose(tally, sent)
}

/// Looks the hits of these tallies up once more in this list of rules, one for each rule. Where it has no rule there
/// each hit of the tally is a miss, which is posted. The rules are canonical, and each hit's rule is that of its pair
/// (docs/LEARNING.md, "Behind the join"). It fails only where memory is refused. It waits where the post does.
pub fn look_again<T: Lookup, P: Post>(
    alloc: Global,
    rules: &T,
    post: &mut P,
    tallies: Vec<Tally>,
) -> Result<Relooked, OutOfMemory>
    requires canonical { AreCanonical (T.machine rules.now) (T.rules rules.now) }
    requires tallies { All (IsTally (T.machine rules.now)) tallies.items }
    ensures relooked { IfOk result (λ r. AreRelooked (T.machine rules.now) (T.rules rules.now) tallies.items r
        (P.taken post.old) (P.taken post.new) (P.fulls post.old) (P.fulls post.new)) }
    ensures home { P.home post.new ≡ P.home post.old }
{
    let mut done = Relooked::new(alloc);
    for tally in tallies {
        relook_one(alloc, rules, post, tally, &mut done)?;
    }
    Ok(done)
}

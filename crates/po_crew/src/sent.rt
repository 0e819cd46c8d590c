//! The misses of a block are posted, one by one.
ghost use Rattle.std.specs.Prelude.{◌≡◌, ◌+◌, ◌-◌, ◌<◌, ◌^◌, map, All, IfOk};
ghost use Rattle.po_model.specs.Pairs.{pair_of, WellFormedPair};
ghost use Rattle.po_crew.specs.Posted.{counted, ArePosted, IsPosted};

use crate::copies::copy_pair;
use po_model::Pair;
use po_rule::{Miss, Post, Posted};
use po_word::OutOfMemory;
use std::alloc::Global;

/// How many misses were taken, and how many dropped (docs/LEARNING.md, "A worker's unit").
#[derive(Clone, Copy, Drop)]
pub struct Sent {
    pub taken: u64,
    pub dropped: u64,
}

impl Sent {
    /// One answer more.
    fn count(&mut self, answer: Posted)
        requires { self.old.taken + self.old.dropped < 2 ^ 64 - 1 }
        ensures { self.new ≡ counted answer self.old }
    {
        match answer {
            Posted::Taken => self.taken += 1,
            Posted::Dropped => self.dropped += 1,
        }
    }
}

/// Posts one miss, and counts what became of it.
fn send<P: Post>(post: &mut P, miss: Miss, sent: &mut Sent)
    requires { sent.old.taken + sent.old.dropped < 2 ^ 64 - 1 }
    ensures posted { IsPosted (pair_of miss) (P.taken post.old) (P.taken post.new)
        (P.fulls post.old) (P.fulls post.new) sent.old sent.new }
    ensures home { P.home post.new ≡ P.home post.old }
{
    let answer = post.post(miss);
    sent.count(answer);
}

/// Posts each of these misses once, in order (docs/LEARNING.md, "A worker's unit"). It fails only where memory is
/// refused. It waits where the post does.
pub fn post_all<P: Post>(alloc: Global, post: &mut P, misses: &[Pair]) -> Result<Sent, OutOfMemory>
    requires { All WellFormedPair (map pair_of misses.now) }
    ensures posted { IfOk result (λ sent. ArePosted (map pair_of misses.now) (P.taken post.old) (P.taken post.new)
        (P.fulls post.old) (P.fulls post.new) sent.taken sent.dropped) }
    ensures home { P.home post.new ≡ P.home post.old }
{
    let mut sent = Sent {
        taken: 0,
        dropped: 0,
    };
    for p in misses {
        let copy = copy_pair(alloc, p)?;
        send(post, Miss::new(copy), &mut sent);
    }
    Ok(sent)
}

//! A worker's post over the queue.
ghost use Rattle.std.specs.Prelude.{◌≡◌, ◌<◌, true};
ghost use Rattle.po_team.specs.Ways.{RemembersFull};

use po_pool::Bell;
use po_queue::{Pass, Posts};
use po_rule::{Miss, Post, Posted};
use std::marker::Model;
use std::sync::Wait;

/// A pass of the queue, which rings the bell for each miss that the queue takes, and a count of those that it didn't.
/// Contracts see the pass and the count (docs/LEARNING.md, "Workers and learners").
#[derive(Drop)]
pub struct Outbox<'a, R: Wait> {
    posts: &'a Posts<Miss>,
    bell: &'a Bell,
    rt: &'a R,
    pass: Pass<Miss>,
    fulls: u64,
}

impl<'a, R: Wait> Model for Outbox<'a, R> {
    ghost use Rattle.std.specs.Prelude.{◌≡◌, ◌<◌, true};
    ghost use Rattle.std.specs.Coded.{codes};
    ghost use Rattle.po_term.specs.contracts.term.Term as term;
    ghost use Rattle.po_model.specs.declared.pair.Pair.{Pair};
    ghost use Rattle.po_team.specs.Ways.{PostView};

    ghost Value = { PostView Pair };

    ghost coded = { Prim.hlevel (codes, term.the_row.coded) };

    ghost view = { λ p. record { pass = p.pass; fulls = p.fulls } };

    ghost invariant = { λ p. (p.pass.queue ≡ p.posts.now.queue) × (0 < p.fulls → p.pass.met_full ≡ true) };
}

impl<'a, R: Wait> Outbox<'a, R> {
    /// The post of a pass of this queue, which has met the queue full so often (docs/LEARNING.md, "Workers and
    /// learners").
    pub fn new(
        rt: &'a R,
        posts: &'a Posts<Miss>,
        bell: &'a Bell,
        pass: Pass<Miss>,
        fulls: u64,
    ) -> Outbox<'a, R>
        requires queue { pass.queue ≡ posts.now.queue }
        requires full { 0 < fulls → pass.met_full ≡ true }
        ensures { result ≡ record { pass = pass; fulls = fulls } }
    {
        Outbox {
            posts,
            bell,
            rt,
            pass,
            fulls,
        }
    }

    /// Its pass, and how often the queue was full (docs/LEARNING.md, "Workers and learners").
    pub fn into_parts(self) -> (Pass<Miss>, u64)
        ensures is_it { (result.0 ≡ self.entry.pass) × (result.1 ≡ self.entry.fulls) }
        ensures full { RemembersFull self.entry }
    {
        let Outbox { pass, fulls, .. } = self;
        (pass, fulls)
    }
}

impl<'a, R: Wait> Post for Outbox<'a, R> {
    ghost use Rattle.std.specs.Prelude.{map};
    ghost use Rattle.po_model.specs.declared.pair.Pair.{Pair};
    ghost use Rattle.po_model.specs.Pairs.{pair_of};
    ghost use Rattle.po_team.specs.Ways.{PostHome, home_of};

    ghost Home = { PostHome Pair };

    ghost taken = { λ p. map pair_of p.pass.puts };

    ghost fulls = { λ p. p.fulls };

    ghost home = { home_of };

    fn post(&mut self, miss: Miss) -> Posted {
        match self.posts.offer(self.rt, &mut self.pass, miss) {
            Ok(()) => {
                self.bell.ring(self.rt);
                Posted::Taken
            }
            Err(_) => {
                self.fulls = self.fulls.saturating_add(1);
                Posted::Dropped
            }
        }
    }
}

//! The end of a run: from what is left when all threads have ended to the codes, the rules and the counts.
ghost use Rattle.std.specs.Prelude.{◌≡◌, ◌+◌, ◌<◌, ◌≤◌, ◌++◌, ◌∷◌, [], List, All, length, map, IfOk, OnOk};
ghost use Rattle.std.specs.Arc.{arc_value};
ghost use Rattle.std.specs.List.{sum_by};
ghost use Rattle.po_model.specs.Lookups.{AreCanonical};
ghost use Rattle.po_model.specs.Machines.{IsMachine};
ghost use Rattle.po_model.specs.Pairs.{pair_of, WellFormedPair};
ghost use Rattle.po_model.specs.UnitCodes.{PlainUnit};
ghost use Rattle.po_queue.specs.Passes.{IsOf, new_pass, put_count};
ghost use Rattle.po_settle.specs.Reported.{HasFormedMisses};
ghost use Rattle.po_team.specs.Ends.{HaveMetFull, take_count};
ghost use Rattle.po_team.specs.Works.{IsPosting};
ghost use Rattle.po_opt.specs.Counts.{AreCounted, AreCounts};
ghost use Rattle.po_opt.specs.Relooked.{AreSeen};
ghost use Rattle.po_opt.specs.Told.{AreTold, IsTally};

use crate::counts::{Counts, added};
use crate::relook::{Relooked, look_again};
use crate::rest::end_learning;
use crate::rules::{Written, write_rules};
use crate::works::Told;
use po_fore::{BlockReport, Hit};
use po_model::{Machine, Pair, UnitCode};
use po_pool::{Bell, Gate};
use po_queue::{Pass, Posts};
use po_rule::{Lookup, Miss, Table};
use po_store::{Edition, Publisher, StoreName};
use po_tally::Tally;
use po_team::Outbox;
use po_word::{OutOfMemory, push};
use std::alloc::Global;
use std::sync::ledger::Share;
use std::sync::{Arc, Wait};

/// What a run makes: the codes, the lines of rules, and the counts (docs/LEARNING.md, "Behind the join").
#[derive(Drop)]
pub struct Opted {
    pub codes: Vec<UnitCode>,
    pub rules: Vec<u8>,
    pub counts: Counts,
}

/// Hits that were looked up once more, and the pass with which the new misses were put.
#[derive(Drop)]
struct Again {
    relooked: Relooked,
    pass: Pass<Miss>,
    fulls: u64,
}

/// The lines of rules and the counts.
#[derive(Drop)]
struct Counted {
    rules: Vec<u8>,
    counts: Counts,
}

/// Looks the hits of these tallies up once more, with a pass of its own.
fn see_again<T: Lookup, W: Wait>(
    rt: &W,
    alloc: Global,
    table: &T,
    posts: &Posts<Miss>,
    pass: Pass<Miss>,
    tallies: Vec<Tally>,
) -> Result<Again, OutOfMemory>
    requires canonical { AreCanonical (T.machine table.now) (T.rules table.now) }
    requires tallies { All (IsTally (T.machine table.now)) tallies.items }
    requires pass { pass ≡ new_pass posts.now.queue }
    ensures seen { IfOk result (λ a. AreSeen (T.machine table.now) (T.rules table.now) tallies.items a.relooked) }
    ensures posting { IfOk result
        (λ a. IsPosting posts.now.queue a.pass a.fulls a.relooked.taken a.relooked.dropped) }
{
    let bell = Bell::new();
    let mut post = Outbox::new(rt, posts, &bell, pass, 0);
    let relooked = look_again(alloc, table, &mut post, tallies)?;
    let (pass, fulls) = post.into_parts();
    Ok(Again {
        relooked,
        pass,
        fulls,
    })
}

/// Puts misses behind these.
fn append(misses: &mut Vec<Pair>, others: Vec<Pair>) -> Result<(), OutOfMemory>
    ensures { OnOk result (misses.new.items ≡ misses.old.items ++ others.items) }
{
    for pair in others {
        push(misses, pair)?;
    }
    Ok(())
}

/// One report of all tries: a hit of each rule that is published, and the misses, with those that were hits.
fn report_of(hits: Vec<Hit>, misses: Vec<Pair>, lost: Vec<Pair>) -> Result<BlockReport, OutOfMemory>
    ensures used { IfOk result (λ r. r.used.items ≡ hits.items) }
    ensures misses { IfOk result (λ r. r.misses.items ≡ misses.items ++ lost.items) }
{
    let mut misses = misses;
    append(&mut misses, lost)?;
    let tried = added(hits.len() as u64, misses.len() as u64)?;
    Ok(BlockReport {
        used: hits,
        misses,
        tried,
    })
}

/// Puts a report behind these.
fn push_report(reports: &mut Vec<BlockReport>, report: BlockReport) -> Result<(), OutOfMemory>
    ensures { OnOk result (reports.new.items ≡ reports.old.items ++ report ∷ []) }
{
    push(reports, report)
}

/// The report alone.
fn alone(alloc: Global, report: BlockReport) -> Result<Vec<BlockReport>, OutOfMemory>
    ensures { IfOk result (λ rs. rs.items ≡ report ∷ []) }
{
    let mut reports = Vec::new(alloc);
    push_report(&mut reports, report)?;
    Ok(reports)
}

/// Writes the rules of this report and counts all.
fn count<T: Lookup>(
    alloc: Global,
    machine: &Arc<Machine>,
    table: &T,
    reports: Vec<BlockReport>,
    hits: u64,
    posted: u64,
    full: u64,
    learned: u64,
) -> Result<Counted, OutOfMemory>
    requires machine { IsMachine (arc_value machine.now) }
    requires canonical { AreCanonical (arc_value machine.now) (T.rules table.now) }
    requires formed { All HasFormedMisses reports.items }
    ensures { IfOk result (λ c. AreCounted (arc_value machine.now) reports.items hits posted full learned
        c.rules.items c.counts) }
{
    let misses = added(posted, full)?;
    let pairs = added(hits, misses)?;
    let Written { lines, count } = write_rules(alloc, machine, table, reports)?;
    let counts = Counts {
        pairs,
        hits,
        misses,
        posted,
        full,
        learned,
        rules: count,
    };
    Ok(Counted {
        rules: lines,
        counts,
    })
}

/// Puts a pass behind others.
fn push_pass(passes: &mut Vec<Pass<Miss>>, pass: Pass<Miss>) -> Result<(), OutOfMemory>
    ensures { OnOk result (passes.new.items ≡ passes.old.items ++ pass ∷ []) }
{
    push(passes, pass)
}

/// Ends a run, once all its threads have ended: each hit is looked up once more in the publisher's table, what is left
/// in the queue is learned, all shares are gathered, and the rules are written (docs/LEARNING.md, "Behind the join").
/// The pass is one that nothing was put with; with it the passes are all that the queue has. It fails only where
/// memory is refused.
pub fn end_run<V: Edition<T, L>, T: Table + Drop, L: StoreName, R: Wait + Drop, W: Wait, G: Gate>(
    rt: &W,
    alloc: Global,
    gate: &G,
    machine: &Arc<Machine>,
    publisher: &mut Publisher<V, T, L, R>,
    posts: Posts<Miss>,
    pass: Pass<Miss>,
    passes: Vec<Pass<Miss>>,
    shares: Vec<Share<L>>,
    told: Told,
) -> Result<Opted, OutOfMemory>
    requires named { arc_value machine.now ≡ L.machine }
    requires described { IsMachine (arc_value machine.now) }
    requires tallies { All (IsTally (arc_value machine.now)) told.tallies.items }
    requires formed { All WellFormedPair (map pair_of told.misses.items) }
    requires posted { told.taken + told.dropped ≡ length told.misses.items }
    requires pass { pass ≡ new_pass posts.queue }
    requires queue { All (IsOf posts.queue) passes.items }
    requires passes { sum_by (λ p. p.parts) passes.items + 1 ≡ posts.passes }
    requires put { put_count passes.items ≡ told.taken }
    requires full { 0 < told.dropped → HaveMetFull passes.items }
    requires own { (publisher.old.parts ≡ 1) × (publisher.old.amount ≡ 0) }
    requires shares { All (λ s. s.parts ≡ 1) shares.items }
    requires parts { 1 + length shares.items ≡ L.parts }
    requires counted { sum_by (λ s. s.amount) shares.items ≤ take_count passes.items }
    requires lost { take_count passes.items ≤ sum_by (λ s. s.amount) shares.items + length shares.items }
    ensures codes { IfOk result (λ o. o.codes.items ≡ told.codes.items) }
    ensures counts { IfOk result (λ o. (us : List PlainUnit) → AreTold (arc_value machine.now) us told.tallies.items
        told.misses.items
        → AreCounts (arc_value machine.now) us posts.queue.capacity (length shares.items) o.rules.items o.counts) }
{
    let Told {
        codes,
        tallies,
        misses,
        taken,
        dropped,
    } = told;
    let again = see_again(rt, alloc, publisher.table(), &posts, pass, tallies)?;
    let Again { relooked, pass, .. } = again;
    let posted = added(taken, relooked.taken)?;
    let full = added(dropped, relooked.dropped)?;
    let mut passes = passes;
    push_pass(&mut passes, pass)?;
    let learned = end_learning(rt, alloc, gate, machine, publisher, posts, passes, shares)?;
    let report = report_of(relooked.hits, misses, relooked.lost)?;
    let reports = alone(alloc, report)?;
    let counted = count(
        alloc,
        machine,
        publisher.table(),
        reports,
        relooked.found,
        posted,
        full,
        learned,
    )?;
    Ok(Opted {
        codes,
        rules: counted.rules,
        counts: counted.counts,
    })
}

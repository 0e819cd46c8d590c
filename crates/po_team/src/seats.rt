//! The seats of workers and learners: how they are made.
ghost use Rattle.std.specs.Prelude.{◌≡◌, ◌+◌, ◌<◌, ◌≤◌, false, [], ◌∷◌, ◌++◌, All, length, Some, IfOk, OnOk, IsSome};
ghost use Rattle.std.specs.Arc.{arc_value};
ghost use Rattle.po_queue.specs.Passes.{new_pass};
ghost use Rattle.po_team.specs.Seats.{HasLearned};
ghost use Rattle.po_team.specs.Works.{HasPosted};

use crate::learners::LearnerSeat;
use crate::rule::share;
use crate::way::Way;
use crate::workers::WorkerSeat;
use po_model::Machine;
use po_queue::{Pass, Posts};
use po_rule::{Miss, Table};
use po_store::{Edition, Publisher, Reader, StoreName};
use po_word::{OutOfMemory, push};
use std::alloc::Global;
use std::sync::ledger::Share;
use std::sync::{Arc, Wait};

/// A seat for each of these passes, each with one part of the publisher's share of the count. It fails only where
/// memory is refused (docs/LEARNING.md, "Workers and learners").
pub fn learner_seats<V: Edition<T, L>, T: Table + Drop, L: StoreName, R: Wait + Drop>(
    alloc: Global,
    posts: &Posts<Miss>,
    publisher: &mut Publisher<V, T, L, R>,
    passes: Vec<Pass<Miss>>,
) -> Result<Vec<LearnerSeat<L>>, OutOfMemory>
    requires parts { length passes.items < publisher.old.parts }
    requires fresh { All (λ p. p ≡ new_pass posts.now.queue) passes.items }
    ensures count { IfOk result (λ seats. length seats.items ≡ length passes.items) }
    ensures seated { IfOk result (λ seats. All
        (λ s. HasLearned posts.now.queue s.pass s.share.parts s.share.amount s.refused) seats.items) }
    ensures parts { OnOk result (publisher.new.parts + length passes.items ≡ publisher.old.parts) }
    ensures amount { OnOk result (publisher.new.amount ≡ publisher.old.amount) }
    ensures same { OnOk result
        ((publisher.new.rules ≡ publisher.old.rules) × (publisher.new.log ≡ publisher.old.log)) }
{
    let mut seats = Vec::new(alloc);
    for pass in passes {
        let share = publisher.share();
        push_seat(&mut seats, pass, share)?;
    }
    Ok(seats)
}

/// A seat that has learned nothing, behind these.
fn push_seat<L: StoreName>(
    seats: &mut Vec<LearnerSeat<L>>,
    pass: Pass<Miss>,
    share: Share<L>,
) -> Result<(), OutOfMemory>
    ensures { OnOk result (seats.new.items
        ≡ seats.old.items ++ record { pass = pass; share = share; refused = false } ∷ []) }
{
    push(
        seats,
        LearnerSeat {
            pass,
            share,
            refused: false,
        },
    )
}

/// A seat for each of these readers, with a pass out of these and an empty table of the store's machine. It fails only
/// where memory is refused (docs/LEARNING.md, "Workers and learners").
pub fn worker_seats<T: Table + Drop, L: StoreName>(
    alloc: Global,
    machine: &Arc<Machine>,
    posts: &Posts<Miss>,
    passes: &mut Vec<Pass<Miss>>,
    readers: Vec<Reader<T, L>>,
) -> Result<Vec<WorkerSeat<T, L>>, OutOfMemory>
    requires named { arc_value machine.now ≡ L.machine }
    requires enough { length readers.items ≤ length passes.old.items }
    requires fresh { All (λ p. p ≡ new_pass posts.now.queue) passes.old.items }
    ensures count { IfOk result (λ seats. length seats.items ≡ length readers.items) }
    ensures ready { IfOk result (λ seats. All (λ s. IsSome s.way × (T.machine s.empty ≡ L.machine)
        × (T.rules s.empty ≡ []) × HasPosted posts.now.queue s.pass s.fulls 0 0) seats.items) }
    ensures left { OnOk result (length passes.new.items + length readers.items ≡ length passes.old.items) }
    ensures fresh { OnOk result (All (λ p. p ≡ new_pass posts.now.queue) passes.new.items) }
{
    let mut seats = Vec::new(alloc);
    for reader in readers {
        let Some(pass) = passes.pop() else {
            unreachable!()
        };
        let empty = T::open(alloc, share(machine)?)?;
        push_worker(&mut seats, Way::new(reader), pass, empty)?;
    }
    Ok(seats)
}

/// A seat that has compiled nothing, behind these.
fn push_worker<T: Table + Drop, L: StoreName>(
    seats: &mut Vec<WorkerSeat<T, L>>,
    way: Way<T, L>,
    pass: Pass<Miss>,
    empty: T,
) -> Result<(), OutOfMemory>
    ensures { OnOk result (seats.new.items
        ≡ seats.old.items ++ record { way = Some way; pass = Some pass; fulls = 0; empty = empty } ∷ []) }
{
    push(
        seats,
        WorkerSeat {
            way: Some(way),
            pass: Some(pass),
            fulls: 0,
            empty,
        },
    )
}

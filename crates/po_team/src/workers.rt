//! What a worker does with a unit: it tells its reader what is published, and compiles the unit by what the reader
//! sees.
ghost use Rattle.std.specs.Prelude.{◌≡◌, ◌+◌, ◌<◌, [], ◌∷◌, ◌++◌, true, All, length, slice_get, Some, IfOk, IsSome};
ghost use mathlib.Core.List.{IsPrefix};
ghost use Rattle.po_model.specs.Blocks.{code_of};
ghost use Rattle.po_model.specs.Machines.{IsMachine};
ghost use Rattle.po_model.specs.UnitCodes.{unit_of, IsFormedCode};
ghost use Rattle.po_store.specs.Published.{plain};
ghost use Rattle.po_team.specs.Works.{GivesAt, HasPosted, IsBriefBy, IsWorkBy, Puts, taken_in, dropped_in};

use crate::copy::copy_unit;
use crate::outbox::Outbox;
use crate::taught::Taught;
use crate::way::Way;
use po_crew::{Work, work_unit};
use po_model::{Machine, Steps, UnitCode};
use po_pool::{Bell, Gate, Job, Place};
use po_queue::{Pass, Posts};
use po_rule::{Miss, Table};
use po_store::{Edition, Note, StoreName};
use po_tally::{Brief, shorten};
use po_word::OutOfMemory;
use std::alloc::Global;
use std::marker::Brand;
use std::sync::ledger::{Blank, Ledger};
use std::sync::{Mutex, Wait};

/// What a worker keeps from unit to unit: its way to the rules and its pass, which are out while a unit is compiled,
/// how often the queue was full, and a table without a rule (docs/LEARNING.md, "Workers and learners").
#[derive(Drop)]
pub struct WorkerSeat<T: Table + Drop, L: StoreName> {
    pub way: Option<Way<T, L>>,
    pub pass: Option<Pass<Miss>>,
    pub fulls: u64,
    pub empty: T,
}

/// What all workers share: the codes, the queue with its bell, and the publisher under its lock (docs/LEARNING.md,
/// "Workers and learners").
#[derive(Drop)]
pub struct Workers<
    'a,
    V: Edition<T, L>,
    T: Table + Drop,
    L: StoreName,
    R: Wait + Drop,
    W: Wait,
    G: Gate,
> {
    /// The machine.
    pub machine: &'a Machine,
    /// The codes, by the units' indexes.
    pub codes: &'a [UnitCode],
    /// The queue.
    pub posts: &'a Posts<Miss>,
    bell: &'a Bell,
    taught: &'a Mutex<Taught<V, T, L, R>>,
    rt: &'a W,
    gate: &'a G,
    ghost named: { machine.now ≡ L.machine },
}

/// What a unit gave, and what the seat gets back.
#[derive(Drop)]
struct Back<T: Table + Drop, L: StoreName> {
    work: Work,
    way: Way<T, L>,
    pass: Pass<Miss>,
    fulls: u64,
}

/// The brief of what a unit gave, and what the seat gets back.
#[derive(Drop)]
struct Brought<T: Table + Drop, L: StoreName> {
    brief: Brief,
    way: Way<T, L>,
    pass: Pass<Miss>,
    fulls: u64,
}

/// What is published now.
fn published<V: Edition<T, L>, T: Table + Drop, L: StoreName, R: Wait + Drop, W: Wait>(
    rt: &W,
    taught: &Mutex<Taught<V, T, L, R>>,
) -> Note<L> {
    let taught = taught.lock(rt);
    let taught = &*taught;
    taught.note()
}

/// Compiles a unit, over a count of its own.
fn counted<T: Table + Drop, L: StoreName, W: Wait, S: Ledger>(
    alloc: Global,
    m: &Machine,
    way: Way<T, L>,
    empty: &T,
    post: Outbox<W>,
    code: UnitCode,
    ledger: Blank,
) -> Result<Back<T, L>, OutOfMemory>
    requires machine { IsMachine m.now }
    requires named { m.now ≡ L.machine }
    requires empty_machine { T.machine empty.now ≡ L.machine }
    requires empty { T.rules empty.now ≡ [] }
    requires code { IsFormedCode (code_of code.code) }
    requires name { ledger.name ≡ S.name }
    requires parts { ledger.parts ≡ S.parts }
    requires some { 0 < ledger.parts }
    ensures work { IfOk result (λ b. IsWorkBy m.now (plain way.seen) (unit_of code) b.work) }
    ensures puts { IfOk result
        (λ b. Puts post.entry.pass post.entry.fulls b.pass b.fulls b.work.taken b.work.dropped) }
{
    let mut steps = Steps::<S>::new(ledger);
    let mut post = post;
    let (work, way) = match work_unit(alloc, m, way, empty, &mut post, code, &mut steps) {
        Ok(done) => done,
        Err(refusal) => return Err(refusal),
    };
    let (pass, fulls) = post.into_parts();
    Ok(Back {
        work,
        way,
        pass,
        fulls,
    })
}

/// Compiles a unit.
fn compile<T: Table + Drop, L: StoreName, W: Wait>(
    alloc: Global,
    m: &Machine,
    way: Way<T, L>,
    empty: &T,
    post: Outbox<W>,
    code: UnitCode,
) -> Result<Back<T, L>, OutOfMemory>
    requires machine { IsMachine m.now }
    requires named { m.now ≡ L.machine }
    requires empty_machine { T.machine empty.now ≡ L.machine }
    requires empty { T.rules empty.now ≡ [] }
    requires code { IsFormedCode (code_of code.code) }
    ensures work { IfOk result (λ b. IsWorkBy m.now (plain way.seen) (unit_of code) b.work) }
    ensures puts { IfOk result
        (λ b. Puts post.entry.pass post.entry.fulls b.pass b.fulls b.work.taken b.work.dropped) }
{
    counted::<T, L, W, Brand>(alloc, m, way, empty, post, code, Blank::new(1))
}

impl<'a, V: Edition<T, L>, T: Table + Drop, L: StoreName, R: Wait + Drop, W: Wait, G: Gate> Workers<
    'a,
    V,
    T,
    L,
    R,
    W,
    G,
> {
    /// Workers on these codes, on the store's machine (docs/LEARNING.md, "Workers and learners").
    pub fn new(
        rt: &'a W,
        machine: &'a Machine,
        codes: &'a [UnitCode],
        posts: &'a Posts<Miss>,
        bell: &'a Bell,
        taught: &'a Mutex<Taught<V, T, L, R>>,
        gate: &'a G,
    ) -> Workers<'a, V, T, L, R, W, G>
        requires named { machine.now ≡ L.machine }
        ensures machine { result.machine.now ≡ machine.now }
        ensures codes { result.codes.now ≡ codes.now }
        ensures posts { result.posts.now ≡ posts.now }
    {
        Workers {
            machine,
            codes,
            posts,
            bell,
            taught,
            rt,
            gate,
        }
    }

    /// A copy of the code of a unit.
    fn code_of(&self, alloc: Global, index: u32) -> Result<UnitCode, OutOfMemory>
        requires index { index < length self.now.codes.now }
        requires formed { All (λ u. IsFormedCode (code_of u.code)) self.now.codes.now }
        ensures copy { IfOk result (λ copy. (u : _) × (slice_get self.now.codes.now index ≡ Some u)
            × (unit_of copy ≡ unit_of u)) }
        ensures formed { IfOk result (λ copy. IsFormedCode (code_of copy.code)) }
    {
        let copy = copy_unit(alloc, &self.codes[index as usize])?;
        Ok(copy)
    }

    /// Compiles the unit of an index, once its reader was told a note.
    fn compile(
        &self,
        alloc: Global,
        note: Note<L>,
        way: Way<T, L>,
        empty: &T,
        pass: Pass<Miss>,
        fulls: u64,
        index: u32,
    ) -> Result<Brought<T, L>, OutOfMemory>
        requires index { index < length self.now.codes.now }
        requires described { IsMachine self.now.machine.now }
        requires formed { All (λ u. IsFormedCode (code_of u.code)) self.now.codes.now }
        requires empty_machine { T.machine empty.now ≡ L.machine }
        requires empty { T.rules empty.now ≡ [] }
        requires queue { pass.queue ≡ self.now.posts.now.queue }
        requires full { 0 < fulls → pass.met_full ≡ true }
        ensures brief { IfOk result (λ b. (told : _) × IsPrefix (plain note) told
            × IsBriefBy self.now.machine.now self.now.codes.now told index b.brief) }
        ensures puts { IfOk result (λ b. Puts pass fulls b.pass b.fulls b.brief.taken b.brief.dropped) }
    {
        let way = way.told(note);
        let post = Outbox::new(self.rt, self.posts, self.bell, pass, fulls);
        let code = self.code_of(alloc, index)?;
        let back = compile(alloc, self.machine, way, empty, post, code)?;
        let Back {
            work,
            way,
            pass,
            fulls,
        } = back;
        let brief = shorten(alloc, work)?;
        Ok(Brought {
            brief,
            way,
            pass,
            fulls,
        })
    }
}

impl<
    'a,
    V: Edition<T, L> + Send + Sync,
    T: Table + Drop + Send + Sync,
    L: StoreName + Send + Sync,
    R: Wait + Drop + Send + Sync,
    W: Wait + Sync,
    G: Gate + Sync,
> Job for Workers<'a, V, T, L, R, W, G> {
    type Seat = WorkerSeat<T, L>;

    type Out = Brief;

    ghost count = { λ w. length w.codes.now };

    ghost good = { λ w place seat done. IsMachine w.machine.now
        × All (λ u. IsFormedCode (code_of u.code)) w.codes.now
        × IsSome seat.way × (T.machine seat.empty ≡ L.machine) × (T.rules seat.empty ≡ [])
        × HasPosted w.posts.now.queue seat.pass seat.fulls (taken_in done) (dropped_in done) };

    ghost gives = { λ w index o. GivesAt w.machine.now w.codes.now index o };

    fn unit(
        &self,
        alloc: Global,
        seat: &mut WorkerSeat<T, L>,
        _place: u32,
        _done: &[Brief],
        index: u32,
    ) -> Result<Brief, OutOfMemory> {
        self.gate.at(Place::UnitStart(index));
        let note = published(self.rt, self.taught);
        let Some(way) = seat.way.take() else {
            unreachable!()
        };
        let Some(pass) = seat.pass.take() else {
            unreachable!()
        };
        let Brought {
            brief,
            way,
            pass,
            fulls,
        } = self.compile(alloc, note, way, &seat.empty, pass, seat.fulls, index)?;
        seat.way = Some(way);
        seat.pass = Some(pass);
        seat.fulls = fulls;
        self.gate.at(Place::UnitEnd(index));
        Ok(brief)
    }
}

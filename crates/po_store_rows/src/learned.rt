//! A store with two readers, and what they see while rules are learned.
ghost use Rattle.std.specs.Prelude.{◌≡◌, ◌<◌, IfOk};
ghost use Rattle.std.specs.Arc.{arc_value};
ghost use Rattle.po_model.specs.Machines.{IsMachine};
ghost use Rattle.po_store_rows.specs.Lessons.{IsLesson};

use crate::pairs::{rule, second_pair, tiny};
use po_model::{Machine, Pair};
use po_rule::{AddRefusal, Learned, Table};
use po_store::{Edition, Opened, Publisher, Reader, StoreName, open_store};
use po_table::RuleTable;
use std::alloc::Global;
use std::marker::Brand;
use std::sync::ledger::{Blank, Share};
use std::sync::{Arc, Wait};
use std::test::Fail;

/// A constant that an addition takes, and one that it doesn't.
const NEAR: &str = "unit f\nadl 0\ncon 1\nadd\nret\nend\n";

const FAR: &str = "unit f\nadl 0\ncon 200\nadd\nret\nend\n";

/// How many rules a reader sees, where it comes inside.
fn sees<L: StoreName>(reader: Reader<RuleTable, L>) -> (Reader<RuleTable, L>, Option<usize>) {
    match reader.enter() {
        Ok(snapshot) => {
            let count = snapshot.table().len();
            (snapshot.leave(), Some(count))
        }
        Err(reader) => (reader, None),
    }
}

/// A pair beside its rule.
#[derive(Drop)]
struct Lesson {
    pair: Pair,
    learned: Learned,
}

/// The second pair of the unit, and its rule.
fn second_lesson(alloc: Global, machine: &Arc<Machine>, unit: &str) -> Result<Lesson, Fail>
    requires { IsMachine (arc_value machine.now) }
    ensures { IfOk result (λ l. IsLesson (arc_value machine.now) l.pair l.learned) }
{
    let pair = second_pair(alloc, machine, unit)?;
    let learned = rule(alloc, machine, &pair)?;
    Ok(Lesson { pair, learned })
}

/// Learns a pair, and answers its rule's place.
fn learn<V: Edition<RuleTable, L>, L: StoreName, R: Wait + Drop>(
    alloc: Global,
    publisher: &mut Publisher<V, RuleTable, L, R>,
    share: &mut Share<L>,
    lesson: Lesson,
) -> Option<u64>
    requires lesson { IsLesson L.machine lesson.pair lesson.learned }
    requires share { 0 < share.old.parts }
    ensures share { 0 < share.new.parts }
{
    let Lesson { pair, learned } = lesson;
    publisher.learn_one(alloc, share, pair, learned).ok()
}

/// Whether readers see what is published, and each rule has its place.
fn sees_all<V: Edition<RuleTable, L>, L: StoreName, R: Wait + Drop>(
    alloc: Global,
    publisher: &mut Publisher<V, RuleTable, L, R>,
    share: &mut Share<L>,
    readers: (Reader<RuleTable, L>, Reader<RuleTable, L>),
    near: Lesson,
    far: Lesson,
    again: Lesson,
) -> bool
    requires near { IsLesson L.machine near.pair near.learned }
    requires far { IsLesson L.machine far.pair far.learned }
    requires again { IsLesson L.machine again.pair again.learned }
    requires share { 0 < share.old.parts }
{
    let (first, told) = readers;
    let (first, before) = sees(first);
    let near = learn(alloc, publisher, share, near);
    let far = learn(alloc, publisher, share, far);
    let (told, two) = sees(told.learn(publisher.note()));
    let again = learn(alloc, publisher, share, again);
    let (_told, still) = sees(told);
    let (_first, after) = sees(first);
    let seen = [before, two, still, after] == [Some(0), Some(2), Some(2), Some(2)];
    let places = [near, far, again] == [Some(0), Some(1), Some(0)];
    seen && places
}

/// Opens a store with two readers, and looks at it.
fn is_seen<L: StoreName, R: Wait + Drop>(
    rt: R,
    alloc: Global,
    opened: Opened,
    blank: Blank,
    machine: Arc<Machine>,
    near: Lesson,
    far: Lesson,
    again: Lesson,
) -> bool
    requires history { opened.seen.book ≡ L.book }
    requires count { (blank.name ≡ L.name) × (blank.parts ≡ L.parts) × (blank.parts ≡ 9) }
    requires machine { arc_value machine ≡ L.machine }
    requires near { IsLesson L.machine near.pair near.learned }
    requires far { IsLesson L.machine far.pair far.learned }
    requires again { IsLesson L.machine again.pair again.learned }
{
    let Ok((mut publisher, mut readers)) = open_store::<RuleTable, L, R>(
        alloc, rt, opened, blank, machine, 2,
    ) else {
        return false;
    };
    let Some(told) = readers.pop() else {
        return false;
    };
    let Some(first) = readers.pop() else {
        return false;
    };
    let mut share = publisher.share();
    let seen = sees_all(
        alloc,
        &mut publisher,
        &mut share,
        (first, told),
        near,
        far,
        again,
    );
    let logged = publisher.logged();
    let published = publisher.table().len();
    publisher.gather(share);
    publisher.close();
    seen && logged == 3 && published == 2
}

#[test]
fn learned(rt: HostRuntime) -> Result<(), Fail> {
    let alloc = rt.alloc();
    let machine = tiny(alloc)?;
    let near = second_lesson(alloc, &machine, NEAR)?;
    let far = second_lesson(alloc, &machine, FAR)?;
    let again = second_lesson(alloc, &machine, NEAR)?;
    let (history, count) = (Opened::new(), Blank::new(9));
    assert!(rt; is_seen::<Brand, _>(&rt, alloc, history, count, machine, near, far, again));
    Ok(())
}

/// A table with the rule of the unit's second pair behind the others.
fn longer(
    alloc: Global,
    machine: &Arc<Machine>,
    table: &RuleTable,
    unit: &str,
) -> Result<Result<RuleTable, AddRefusal>, Fail>
    requires { IsMachine (arc_value machine.now) }
{
    let Lesson { pair: _, learned } = second_lesson(alloc, machine, unit)?;
    Ok(table.with(alloc, learned))
}

/// Whether a table with another rule behind it is a new one, and this one stays.
fn is_longer(alloc: Global, machine: &Arc<Machine>, empty: &RuleTable) -> Result<bool, Fail>
    requires { IsMachine (arc_value machine.now) }
{
    let Ok(one) = longer(alloc, machine, empty, NEAR)? else {
        return Ok(false);
    };
    let Ok(two) = longer(alloc, machine, &one, FAR)? else {
        return Ok(false);
    };
    let known = longer(alloc, machine, &two, NEAR)?;
    let lengths = [empty.len(), one.len(), two.len()] == [0, 1, 2];
    Ok(lengths && matches!(known, Err(AddRefusal::Known(0))))
}

#[test]
fn with(rt: HostRuntime) -> Result<(), Fail> {
    let alloc = rt.alloc();
    let machine = tiny(alloc)?;
    let empty = RuleTable::open(alloc, Arc::try_clone(&machine)?)?;
    assert!(rt; is_longer(alloc, &machine, &empty)?);
    Ok(())
}

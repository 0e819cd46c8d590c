//! Short runs of a queue with two passes: what each step answers, and what is left.
ghost use Rattle.std.specs.Prelude.{◌≡◌, ◌<◌};

use self::Answer::{Empty, Full, Put, Taken};
use self::Step::{Offer, Take};
use self::Who::{First, Second};
use po_queue::{Pass, Posts, open};
use std::alloc::Global;
use std::sync::Wait;
use std::test::Fail;

/// Which of the two passes makes a step.
#[derive(Clone, Copy)]
enum Who {
    First,
    Second,
}

#[derive(Clone, Copy)]
enum Step {
    Offer(u64),
    Take,
}

#[derive(Clone, Copy, PartialEq, Eq)]
enum Answer {
    Put,
    Full(u64),
    Taken(u64),
    Empty,
}

/// Who makes which step, with which answer.
type Move = (Who, Step, Answer);

/// A name, a capacity, the moves, and what is left after them.
type Row = (&'static str, usize, &'static [Move], &'static [u64]);

const ROWS: [Row; 4] = [
    (
        "room for one",
        1,
        &[
            (First, Offer(5), Put),
            (First, Offer(6), Full(6)),
            (First, Take, Taken(5)),
            (First, Take, Empty),
        ],
        &[],
    ),
    (
        "two are left",
        2,
        &[(First, Offer(5), Put), (First, Offer(6), Put)],
        &[5, 6],
    ),
    (
        "two passes",
        2,
        &[
            (First, Offer(1), Put),
            (Second, Offer(2), Put),
            (First, Offer(3), Full(3)),
            (Second, Take, Taken(1)),
            (Second, Offer(3), Put),
        ],
        &[2, 3],
    ),
    ("nothing was put", 3, &[(Second, Take, Empty)], &[]),
];

/// Makes a step.
fn make<R: Wait>(rt: &R, posts: &Posts<u64>, pass: &mut Pass<u64>, step: Step) -> Answer
    requires { pass.old.queue ≡ posts.now.queue }
    ensures queue { pass.new.queue ≡ pass.old.queue }
    ensures parts { pass.new.parts ≡ pass.old.parts }
{
    match step {
        Offer(item) => match posts.offer(rt, pass, item) {
            Ok(()) => Put,
            Err(full) => Full(full.0),
        },
        Take => match posts.take(rt, pass) {
            Some(item) => Taken(item),
            None => Empty,
        },
    }
}

/// Whether the moves have these answers, and leave that.
fn plays<R: Wait>(
    rt: &R,
    alloc: Global,
    capacity: usize,
    moves: &[Move],
    left: &[u64],
) -> Result<bool, Fail>
    requires { 0 < capacity }
{
    let (posts, mut passes) = open::<u64>(alloc, capacity, 2)?;
    let Some(mut first) = passes.pop() else {
        return Ok(false);
    };
    let Some(mut second) = passes.pop() else {
        return Ok(false);
    };
    for (who, next, answer) in moves {
        let given = match who {
            First => make(rt, &posts, &mut first, *next),
            Second => make(rt, &posts, &mut second, *next),
        };
        if given != *answer {
            return Ok(false);
        }
    }
    passes.push(first)?;
    passes.push(second)?;
    match posts.drain(alloc, rt, passes) {
        Ok(found) => Ok(found.as_slice() == left),
        Err(_) => Ok(false),
    }
}

#[test]
fn run(rt: HostRuntime) -> Result<(), Fail> {
    for (name, capacity, moves, left) in ROWS {
        if capacity > 0 {
            assert!(rt; plays(&rt, rt.alloc(), capacity, moves, left)?, "{name}");
        }
    }
    Ok(())
}

//! A queue that is filled to its capacity.
ghost use Rattle.std.specs.Prelude.{◌≡◌, ◌<◌};

use po_queue::{Full, open};
use std::alloc::Global;
use std::sync::Wait;
use std::test::Fail;

const CAPACITY: u64 = 1024;

/// Whether the numbers below the capacity are put, the next one comes back, and these numbers are left in order.
fn fills<R: Wait>(rt: &R, alloc: Global) -> Result<bool, Fail> {
    let (posts, mut passes) = open::<u64>(alloc, 1024, 1)?;
    let Some(mut pass) = passes.pop() else {
        return Ok(false);
    };
    for x in 0..CAPACITY {
        if posts.offer(rt, &mut pass, x).is_err() {
            return Ok(false);
        }
    }
    let last = match posts.offer(rt, &mut pass, CAPACITY) {
        Ok(()) => return Ok(false),
        Err(Full(item)) => item,
    };
    passes.push(pass)?;
    match posts.drain(alloc, rt, passes) {
        Ok(left) => Ok(last == CAPACITY && left.iter().copied().eq(0..CAPACITY)),
        Err(_) => Ok(false),
    }
}

#[test]
fn full(rt: HostRuntime) -> Result<(), Fail> {
    assert!(rt; fills(&rt, rt.alloc())?);
    Ok(())
}

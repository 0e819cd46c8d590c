//! One learner.

use crate::bell::Bell;
use crate::job::{Study, Turn};
use std::alloc::Global;
use std::sync::Wait;

/// The learner at this place takes turns until the workers have ended and a turn finds nothing, or until memory is
/// refused to it. Between a turn that found nothing and the next one it waits for the bell.
pub fn learn<S: Study, R: Wait>(
    rt: &R,
    alloc: Global,
    study: &S,
    seat: S::Seat,
    place: u32,
    bell: &Bell,
) -> S::Seat
    requires { S.good study.now place seat }
    ensures { S.good study.now place result }
{
    let mut seat = seat;
    'turns: for _ in rt.forever() {
        let known = bell.rings(rt);
        match study.turn(alloc, &mut seat, place) {
            Ok(Turn::Learned) => {}
            Ok(Turn::Nothing) => {
                if known.ended {
                    return seat;
                }
                bell.wait_past(rt, known);
            }
            Err(_) => return seat,
        }
    }
    seat
}

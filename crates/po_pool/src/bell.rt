//! What wakes the learners: it is rung after each pair that is posted, and once more when the workers have ended.

use std::sync::{Condvar, Mutex, Wait};

/// What is known of a bell at a moment: how often it was rung, modulo 2^64, and whether the workers have ended.
#[derive(Clone, Copy, Drop)]
pub struct Rings {
    count: u64,
    pub(crate) ended: bool,
}

/// Learners that found nothing wait for it (docs/LEARNING.md, "The pool").
#[derive(Drop)]
pub struct Bell {
    rings: Mutex<Rings>,
    rung: Condvar,
}

impl Bell {
    /// A bell that wasn't rung (docs/LEARNING.md, "The pool").
    pub fn new() -> Bell {
        Bell {
            rings: Mutex::new(Rings {
                count: 0,
                ended: false,
            }),
            rung: Condvar::new(),
        }
    }

    /// Wakes the learners that wait (docs/LEARNING.md, "The pool"). It may wait.
    pub fn ring<R: Wait>(&self, rt: &R) {
        let mut rings = self.rings.lock(rt);
        rings.count = rings.count.wrapping_add(1);
        self.rung.notify_all();
    }

    /// The workers have ended: from now on no learner waits.
    pub(crate) fn end<R: Wait>(&self, rt: &R) {
        let mut rings = self.rings.lock(rt);
        rings.ended = true;
        self.rung.notify_all();
    }

    /// What is known of it now.
    pub(crate) fn rings<R: Wait>(&self, rt: &R) -> Rings {
        *self.rings.lock(rt)
    }

    /// Waits until it was rung since this was known of it, or the workers have ended.
    pub(crate) fn wait_past<R: Wait>(&self, rt: &R, known: Rings) {
        let _rings = self.rung.wait_while(rt, self.rings.lock(rt), |r| {
            r.count == known.count && !r.ended
        });
    }
}

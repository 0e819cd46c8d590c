//! Placement of intervals: each, in order of start, in the lowest machine register whose last interval ended before.
ghost use Rattle.std.specs.Prelude.{◌≡◌, ℕ, ◌+◌, ◌<◌, ◌≤◌, ◌^◌, ◌==◌, map, drop, length, count_by, IfOk, MatchOption};
ghost use Rattle.std.specs.Prelude.{slice_index};
ghost use Rattle.po_assign.specs.Spans.{interval_from, Rising};
ghost use Rattle.po_assign.specs.Places.{Places};

use crate::spans::Span;
use po_word::OutOfMemory;
use std::alloc::Global;

/// Where virtual registers stand, or the first crowded point.
#[derive(Drop)]
pub enum Placing {
    /// The number of each virtual register with the index of its machine register.
    Given(Vec<(u32, u32)>),
    /// The first point that lies in more intervals than there are machine registers, and how many intervals it lies
    /// in.
    Crowded { point: u32, needed: u32 },
}

/// How many of the spans from `from` on start at a point.
fn starting_at(spans: &[Span], point: u32) -> u32
    requires { length spans.now < 2 ^ 32 }
    ensures { result ≡ count_by (λ s. s.start == point) spans.now }
{
    let mut count = 0;
    for span in spans {
        if span.start == point {
            count += 1;
        }
    }
    count
}

/// The lowest machine register whose last span ended before a point.
fn lowest_free(ends: &[u32], point: u32) -> Option<usize>
    ensures { MatchOption result ((k : ℕ) → k < length ends.now → point ≤ slice_index ends.now k) (λ r.
        (r < length ends.now) × (slice_index ends.now r < point)
        × ((k : ℕ) → k < r → point ≤ slice_index ends.now k)) }
{
    ends.iter().position(|end| *end < point)
}

/// Gives each span, in order, the lowest machine register that is free at its start.
pub fn place_spans(alloc: Global, count: usize, spans: &[Span]) -> Result<Placing, OutOfMemory>
    requires few { count ≤ 64 }
    requires short { length spans.now < 2 ^ 31 }
    requires rising { Rising 1 (map interval_from spans.now) }
    ensures { IfOk result (Places count (map interval_from spans.now)) }
{
    let mut ends = vec![in alloc; 0; count]?;
    let mut regs = Vec::with_capacity(alloc, spans.len())?;
    for index in 0..spans.len() {
        let span = spans[index];
        let Some(free) = lowest_free(&ends, span.start) else {
            return Ok(Placing::Crowded {
                point: span.start,
                needed: count as u32 + starting_at(&spans[index..], span.start),
            });
        };
        ends[free] = span.finish;
        regs.push((span.register, free as u32))?;
    }
    Ok(Placing::Given(regs))
}

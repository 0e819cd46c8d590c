//! Whole parts made of others, within the limits of a term: 64 nodes, and a depth of 16.

ghost use Rattle.std.specs.Prelude.{◌≡◌, ◌+◌, IfOk};
ghost use Rattle.po_pattern.specs.Terms as terms;

use crate::part::Part;
use po_model::PatTerm;
use po_word::{Bin, Un};
use sqlite_items::Boxed;
use std::alloc::{AllocError, Global};

/// The most nodes of a term.
const MAX_NODES: u64 = 64;
/// The most depth of a term.
const MAX_DEPTH: u64 = 16;

/// The part with so many nodes and this depth, if it is within the limits.
fn kept(term: PatTerm, size: u64, depth: u64) -> Option<Part>
    ensures { result ≡ terms.kept term size depth }
{
    if size <= MAX_NODES && depth <= MAX_DEPTH {
        Some(Part {
            term,
            size: size as u32,
            depth: depth as u32,
        })
    } else {
        None
    }
}

fn one_more(count: u32) -> u64
    ensures { result ≡ count + 1 }
{
    u64::from(count) + 1
}

/// `M[t]`
pub fn memory_part(alloc: Global, part: Option<Part>) -> Result<Option<Part>, AllocError>
    ensures { IfOk result (λ whole. whole ≡ terms.memory_part part) }
{
    match part {
        None => Ok(None),
        Some(part) => {
            let term = PatTerm::Mem(Boxed::new(alloc, part.term)?);
            Ok(kept(term, one_more(part.size), one_more(part.depth)))
        }
    }
}

/// `neg(t)`, `not(t)`
pub fn unary_part(alloc: Global, op: Un, part: Option<Part>) -> Result<Option<Part>, AllocError>
    ensures { IfOk result (λ whole. whole ≡ terms.unary_part op part) }
{
    match part {
        None => Ok(None),
        Some(part) => {
            let term = PatTerm::Un(op, Boxed::new(alloc, part.term)?);
            Ok(kept(term, one_more(part.size), one_more(part.depth)))
        }
    }
}

/// `(t op u)`
pub fn binary_part(
    alloc: Global,
    op: Bin,
    left: Option<Part>,
    right: Option<Part>,
) -> Result<Option<Part>, AllocError>
    ensures { IfOk result (λ whole. whole ≡ terms.binary_part op left right) }
{
    match left {
        None => Ok(None),
        Some(left) => match right {
            None => Ok(None),
            Some(right) => joined(alloc, op, left, right),
        },
    }
}

fn joined(alloc: Global, op: Bin, left: Part, right: Part) -> Result<Option<Part>, AllocError>
    ensures { IfOk result (λ whole. whole ≡ terms.joined op left right) }
{
    let size = u64::from(left.size) + one_more(right.size);
    let depth = one_more(left.depth.max(right.depth));
    let term = PatTerm::Bin(
        op,
        Boxed::new(alloc, left.term)?,
        Boxed::new(alloc, right.term)?,
    );
    Ok(kept(term, size, depth))
}

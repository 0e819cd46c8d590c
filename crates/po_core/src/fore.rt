//! A foreground, and the events of it that need no scan: Begin, Post and Drop.
ghost use Rattle.std.specs.Prelude.{◌≡◌, All, MatchOption, map};
ghost use Rattle.po_model.specs.Pairs.{pair_of};
ghost use Rattle.po_core.specs.Went.{Did};
ghost use Rattle.po_core.specs.Fores.{CanBegin, HasBegun, CanPost, HasPosted, CanDrop, HasDropped, AtFore, SetFore};
ghost use Rattle.po_core.specs.Views.{fore_of, IsFormedFore};

use po_model::{Code, Pair};
use po_slow::ScanState;
use std::collections::VecDeque;

/// A foreground: the codes that it was given, with the scan of each. The codes before the present one, the `at`-th,
/// are finished. A scan is made for each code at the start, so none has to be made when a code ends.
#[derive(Drop)]
pub struct Fore {
    pub given: Vec<Code>,
    pub scans: Vec<ScanState>,
    pub at: usize,
    pub tries: u64,
    pub ends: u64,
    pub shown: Option<usize>,
    pub unposted: VecDeque<Pair>,
    pub hits: u64,
    pub misses: u64,
    pub posted: u64,
    pub dropped: u64,
}

/// Takes a snapshot that shows so many rules; false where it may not.
fn begin(f: &mut Fore, published: usize, shown: usize) -> bool
    ensures went { Did result (CanBegin published shown (fore_of f.old))
        (HasBegun shown (fore_of f.old) (fore_of f.new)) (fore_of f.new ≡ fore_of f.old) }
    ensures same { f.new.scans.items ≡ f.old.scans.items }
{
    if f.at >= f.scans.len() {
        return false;
    }
    if f.shown.is_some() {
        return false;
    }
    if !f.unposted.is_empty() {
        return false;
    }
    if shown > published {
        return false;
    }
    f.shown = Some(shown);
    true
}

/// The first unposted miss, to be posted.
fn take_posted(f: &mut Fore) -> Option<Pair>
    ensures went { MatchOption result ((CanPost (fore_of f.old) → ⊥) × (fore_of f.new ≡ fore_of f.old))
        (λ p. CanPost (fore_of f.old) × HasPosted (pair_of p) (fore_of f.old) (fore_of f.new)) }
    ensures same { f.new.scans.items ≡ f.old.scans.items }
{
    if f.shown.is_some() {
        return None;
    }
    if f.posted == u64::MAX {
        return None;
    }
    let Some(p) = f.unposted.pop_front() else {
        return None;
    };
    f.posted += 1;
    Some(p)
}

/// The first unposted miss, to be dropped.
fn take_dropped(f: &mut Fore) -> Option<Pair>
    ensures went { MatchOption result ((CanDrop (fore_of f.old) → ⊥) × (fore_of f.new ≡ fore_of f.old))
        (λ p. CanDrop (fore_of f.old) × HasDropped (pair_of p) (fore_of f.old) (fore_of f.new)) }
    ensures same { f.new.scans.items ≡ f.old.scans.items }
{
    if f.shown.is_some() {
        return None;
    }
    if f.dropped == u64::MAX {
        return None;
    }
    let Some(p) = f.unposted.pop_front() else {
        return None;
    };
    f.dropped += 1;
    Some(p)
}

/// The foreground of that number takes a snapshot that shows so many rules; false where it may not.
pub fn begin_at(fores: &mut [Fore], fore: usize, published: usize, shown: usize) -> bool
    ensures went { Did result (AtFore (map fore_of fores.old) fore (CanBegin published shown))
        (SetFore (map fore_of fores.old) fore (HasBegun shown) (map fore_of fores.new))
        (map fore_of fores.new ≡ map fore_of fores.old) }
    ensures formed { All IsFormedFore fores.old → All IsFormedFore fores.new }
{
    if fore >= fores.len() {
        return false;
    }
    begin(&mut fores[fore], published, shown)
}

/// The first unposted miss of the foreground of that number, to be posted.
pub fn take_posted_at(fores: &mut [Fore], fore: usize) -> Option<Pair>
    ensures went { MatchOption result
        ((AtFore (map fore_of fores.old) fore CanPost → ⊥) × (map fore_of fores.new ≡ map fore_of fores.old))
        (λ p. AtFore (map fore_of fores.old) fore CanPost
        × SetFore (map fore_of fores.old) fore (HasPosted (pair_of p)) (map fore_of fores.new)) }
    ensures formed { All IsFormedFore fores.old → All IsFormedFore fores.new }
{
    if fore >= fores.len() {
        return None;
    }
    take_posted(&mut fores[fore])
}

/// The first unposted miss of the foreground of that number, to be dropped.
pub fn take_dropped_at(fores: &mut [Fore], fore: usize) -> Option<Pair>
    ensures went { MatchOption result
        ((AtFore (map fore_of fores.old) fore CanDrop → ⊥) × (map fore_of fores.new ≡ map fore_of fores.old))
        (λ p. AtFore (map fore_of fores.old) fore CanDrop
        × SetFore (map fore_of fores.old) fore (HasDropped (pair_of p)) (map fore_of fores.new)) }
    ensures formed { All IsFormedFore fores.old → All IsFormedFore fores.new }
{
    if fore >= fores.len() {
        return None;
    }
    take_dropped(&mut fores[fore])
}

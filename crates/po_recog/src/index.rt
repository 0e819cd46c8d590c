//! An index of a machine's entries, made once: the entries of each head are linked, first to last, so that those with
//! another head are passed over without a look. Entries are still tried in order.
ghost use Rattle.std.specs.Prelude.{◌≡◌, ◌<◌, ◌==◌, ◌^◌, ℕ, length, max, IfOk, OnOk, is_some, if◌then◌else◌};
ghost use Rattle.std.specs.Option.{option_map};
ghost use Rattle.po_term.specs.Moves.{moves_of};
ghost use Rattle.po_term.specs.Kinds.{words};
ghost use Rattle.po_model.specs.Fit.{entry_fit, first_fit, fit};
ghost use Rattle.po_model.specs.Parts.{code_leaves};
ghost use Rattle.po_recog.specs.Operands.{operands_in, fit_from, fit_of};
ghost use Rattle.po_recog.specs.Taken.{outcome};
ghost use Rattle.po_recog.specs.Heads.{entry_number, list_number};
ghost use Rattle.po_recog.specs.Indexes.{IsIndexOf, most_transfers, found_with, first_with, links, number_at, heads};

use crate::head::{head_of, head_of_pattern, number_of};
use crate::walk::takes_moves;
use crate::{Fit, Operand};
use po_model::{Entry, Machine};
use po_term::Transfer;
use po_word::{OutOfMemory, push};
use std::alloc::Global;

/// How many numbers of heads there are.
const HEADS: usize = 1280;

/// The entries of each head, and how many transfers the longest entry has (docs/DESCRIPTION.md, "What fits").
#[derive(Drop)]
pub struct Index {
    /// By number of a head, the first entry that has it. Where none has, how many entries there are.
    firsts: Vec<usize>,
    /// By entry, the next one that has its head. Where none has, how many entries there are.
    nexts: Vec<usize>,
    most: usize,
}

/// The number at a place, and 0 behind the end.
fn number_at(numbers: &[usize], place: usize) -> usize
    ensures { result ≡ number_at numbers.now place }
{
    numbers.get(place).copied().unwrap_or(0)
}

/// Puts a number at a place.
fn put_number(numbers: &mut [usize], place: usize, number: usize)
    requires { place < length numbers.old }
    ensures numbers { (k : ℕ) → number_at numbers.new k
        ≡ (if place == k then number else number_at numbers.old k) }
    ensures len { length numbers.new ≡ length numbers.old }
{
    numbers[place] = number;
}

/// The number of an entry's head.
fn entry_number(e: &Entry) -> usize
    ensures number { result ≡ entry_number e.now }
    ensures small { result < 1280 }
{
    number_of(head_of_pattern(e.pattern.as_slice())) as usize
}

/// Links each entry to the next of its head, from the last one back, and leaves the first of each head in `firsts`.
fn linked(alloc: Global, entries: &[Entry], firsts: &mut [usize]) -> Result<Vec<usize>, OutOfMemory>
    requires heads { length firsts.old ≡ 1280 }
    requires none { (g : ℕ) → g < heads → number_at firsts.old g ≡ length entries.now }
    ensures firsts { OnOk result ((g : ℕ) → g < heads → number_at firsts.new g ≡ first_with g entries.now 0) }
    ensures nexts { IfOk result (λ nexts. nexts.items ≡ links entries.now 0) }
{
    let mut nexts = Vec::with_capacity(alloc, entries.len())?;
    let mut i = entries.len();
    while i > 0 {
        i -= 1;
        let head = entry_number(&entries[i]);
        nexts.push(number_at(firsts, head))?;
        put_number(firsts, head, i);
    }
    nexts.reverse();
    Ok(nexts)
}

/// As many times the number of entries as there are heads.
fn no_firsts(alloc: Global, entries: usize) -> Result<Vec<usize>, OutOfMemory>
    ensures len { IfOk result (λ firsts. length firsts.items ≡ 1280) }
    ensures none { IfOk result (λ firsts. (g : ℕ) → g < heads → number_at firsts.items g ≡ entries) }
{
    let firsts = vec![in alloc; entries; HEADS]?;
    Ok(firsts)
}

fn larger(m: usize, n: usize) -> usize
    ensures { result ≡ max m n }
{
    if m < n { n } else { m }
}

/// The most transfers that an entry has.
fn most_of(entries: &[Entry]) -> usize
    ensures { result ≡ most_transfers entries.now }
{
    let mut most = 0;
    for e in entries {
        most = larger(most, e.pattern.as_slice().len());
    }
    most
}

impl Index {
    /// The index of a machine's entries (docs/DESCRIPTION.md, "What fits").
    pub fn new(alloc: Global, m: &Machine) -> Result<Index, OutOfMemory>
        ensures { IfOk result (λ index. IsIndexOf m.now index) }
    {
        let entries = m.entries.as_slice();
        let mut firsts = no_firsts(alloc, entries.len())?;
        let nexts = linked(alloc, entries, &mut firsts)?;
        let most = most_of(entries);
        Ok(Index {
            firsts,
            nexts,
            most,
        })
    }

    /// How many transfers the longest entry has: no entry fits a list of more (docs/DESCRIPTION.md, "What fits").
    pub fn most(&self) -> usize
        ensures { result ≡ self.now.most }
    {
        self.most
    }
}

/// Fills the ten operands of an entry, where it fits. An entry that clobbers `cc` fits only where `cc` is dead.
#[tactic(auto, using(crate::proofs::Agreed::entry_filled))]
fn fills(e: &Entry, xs: &[Transfer], cc_live: bool, slots: &mut [Option<Operand>; 10]) -> bool
    ensures { outcome result slots.new
        ≡ option_map operands_in (entry_fit code_leaves words cc_live e.now (moves_of xs.now)).got }
{
    if e.clobbers && cc_live {
        return false;
    }
    *slots = [None; 10];
    takes_moves(e.pattern.as_slice(), xs, slots)
}

/// The number of the first entry that fits, with its operands in the slots.
fn first_by(
    entries: &[Entry],
    index: &Index,
    xs: &[Transfer],
    cc_live: bool,
    slots: &mut [Option<Operand>; 10],
) -> Option<u32>
    requires few { length entries.now < 2 ^ 32 }
    requires firsts { (g : ℕ) → g < heads → number_at index.now.firsts.items g ≡ first_with g entries.now 0 }
    requires nexts { index.now.nexts.items ≡ links entries.now 0 }
    ensures { found_with result slots.new
        ≡ option_map fit_from (first_fit code_leaves words cc_live entries.now 0 (moves_of xs.now)).got }
{
    let mut next = number_at(&index.firsts, number_of(head_of(xs)) as usize);
    while next < entries.len() {
        if fills(&entries[next], xs, cc_live, slots) {
            return Some(next as u32);
        }
        next = number_at(&index.nexts, next);
    }
    None
}

/// `recognise` by an index of the machine, without memory: the number of the entry, and its ten operands in `slots`
/// (docs/DESCRIPTION.md, "What fits"). Where no entry fits the slots hold nothing that counts.
pub fn recognise_in(
    m: &Machine,
    index: &Index,
    xs: &[Transfer],
    cc_live: bool,
    slots: &mut [Option<Operand>; 10],
) -> Option<u32>
    requires few { length m.now.entries < 2 ^ 32 }
    requires index { IsIndexOf m.now index.now }
    ensures { found_with result slots.new ≡ option_map fit_from (fit m.now cc_live (moves_of xs.now)) }
{
    first_by(m.entries.as_slice(), index, xs, cc_live, slots)
}

/// `recognise` by an index of the machine (docs/DESCRIPTION.md, "What fits").
pub fn recognise_by(
    alloc: Global,
    m: &Machine,
    index: &Index,
    xs: &[Transfer],
    cc_live: bool,
) -> Result<Option<Fit>, OutOfMemory>
    requires few { length m.now.entries < 2 ^ 32 }
    requires index { IsIndexOf m.now index.now }
    ensures { IfOk result
        (λ found. option_map fit_of found ≡ option_map fit_from (fit m.now cc_live (moves_of xs.now))) }
{
    let mut slots = [None; 10];
    match recognise_in(m, index, xs, cc_live, &mut slots) {
        None => Ok(None),
        Some(entry) => {
            let operands = Vec::from_slice(alloc, &slots)?;
            Ok(Some(Fit { entry, operands }))
        }
    }
}

/// The first entry of a machine that fits a list of transfers, where `cc_live` says whether `cc` is live behind them
/// (docs/DESCRIPTION.md, "What fits"). None exactly where no entry fits. The machine has fewer than 2^32 entries. It
/// makes an index of its own: for many lists make one, and call `recognise_by`. It fails only where memory is refused.
pub fn recognise(
    alloc: Global,
    m: &Machine,
    xs: &[Transfer],
    cc_live: bool,
) -> Result<Option<Fit>, OutOfMemory>
    requires { length m.now.entries < 2 ^ 32 }
    ensures { IfOk result
        (λ found. option_map fit_of found ≡ option_map fit_from (fit m.now cc_live (moves_of xs.now))) }
{
    let index = Index::new(alloc, m)?;
    recognise_by(alloc, m, &index, xs, cc_live)
}

/// Whether some entry fits, by an index of the machine (docs/DESCRIPTION.md, "What fits"). It takes no memory.
pub fn is_recognised_by(m: &Machine, index: &Index, xs: &[Transfer], cc_live: bool) -> bool
    requires few { length m.now.entries < 2 ^ 32 }
    requires index { IsIndexOf m.now index.now }
    ensures { result ≡ is_some (fit m.now cc_live (moves_of xs.now)) }
{
    let mut slots = [None; 10];
    first_by(m.entries.as_slice(), index, xs, cc_live, &mut slots).is_some()
}

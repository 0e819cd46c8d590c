//! The transfers of an entry, one behind the other, and what each decides behind those before it.

ghost use Rattle.std.specs.Prelude.{◌≡◌, ◌++◌, ◌∷◌, []};
ghost use Rattle.std.specs.List.{list_all, list_any};
ghost use Rattle.po_lines.specs.Faults.{Gives, Tells};
ghost use Rattle.po_pattern.specs.Rests.{rest_of, read_of};
ghost use Rattle.po_entry.specs.ListRules as rules;

use crate::transfer::transfer;
use crate::words::{behind_word, keyword, says};
use po_lines::{LineError, LineFault, fault_at};
use po_model::{PatReg, PatTransfer};
use po_pattern::{Cursor, Operands, Parsed};
use po_term::Reg;
use po_text::Kind;
use sqlite_items::Items;
use std::alloc::Global;

/// The place of a transfer in the order sets, cc, store, control.
fn order_of(transfer: &PatTransfer) -> u8
    ensures { result ≡ rules.order_of transfer.now }
{
    match transfer {
        PatTransfer::Set(_, _) => 0,
        PatTransfer::Cc(_, _) => 1,
        PatTransfer::Store(_, _) => 2,
        PatTransfer::Goto(_) => 3,
        PatTransfer::If(_, _, _) => 3,
        PatTransfer::Call(_) => 3,
        PatTransfer::Ret => 3,
    }
}

fn same_register(r: PatReg, s: PatReg) -> bool
    ensures { result ≡ rules.same_register r s }
{
    r == s
}

/// Whether a transfer sets this register.
fn sets(r: PatReg, transfer: &PatTransfer) -> bool
    ensures { result ≡ rules.sets r transfer.now }
{
    match transfer {
        PatTransfer::Set(q, _) => same_register(*q, r),
        _ => false,
    }
}

/// Whether a transfer may stand before another, somewhere in the list.
fn goes_before(transfer: &PatTransfer, later: &PatTransfer) -> bool
    ensures { result ≡ rules.goes_before transfer.now later.now }
{
    match transfer {
        PatTransfer::Set(r, _) => !sets(*r, later),
        _ => order_of(transfer) < order_of(later),
    }
}

/// Whether each of these transfers may stand before another one.
fn all_go_before(before: &[PatTransfer], later: &PatTransfer) -> bool
    ensures { result ≡ list_all (λ n. rules.goes_before n later.now) before.now }
{
    before.iter().all(|transfer| goes_before(transfer, later))
}

/// Whether a transfer may stand behind these: it isn't the fifth, it doesn't set `fp`, and each may stand before it.
#[tactic(auto, unfolding(crate::specs::ListRules::may_follow))]
fn may_follow(before: &[PatTransfer], transfer: &PatTransfer) -> bool
    ensures { result ≡ rules.may_follow before.now transfer.now }
{
    before.len() < 4 && !sets(PatReg::Fixed(Reg::Fp), transfer) && all_go_before(before, transfer)
}

/// These transfers and one more, which was read at this column. One whose terms are beyond the limits is TooMany, and
/// one that may not stand behind the others is ListForm.
fn decided(
    column: u32,
    before: Items<PatTransfer>,
    transfer: Option<PatTransfer>,
) -> Result<Items<PatTransfer>, LineError>
    ensures { Gives (λ ms. ms) result (rules.decided column before transfer) }
{
    match transfer {
        None => Err(fault_at(column, Kind::TooMany)),
        Some(transfer) => {
            if !may_follow(before.as_slice(), &transfer) {
                return Err(fault_at(column, Kind::ListForm));
            }
            pushed(before, transfer)
        }
    }
}

fn pushed(
    before: Items<PatTransfer>,
    transfer: PatTransfer,
) -> Result<Items<PatTransfer>, LineError>
    ensures { Gives (λ ms. ms) result (Ok (before ++ transfer ∷ [])) }
{
    let mut list = before;
    list.push(transfer)?;
    Ok(list)
}

/// These transfers, and the one that stands here.
#[tactic(auto, unfolding(crate::specs::ListRules::with_next))]
fn with_next<'a>(
    alloc: Global,
    before: Items<PatTransfer>,
    at: Cursor<'a>,
    seen: Operands,
) -> Result<Parsed<'a, Items<PatTransfer>>, LineError>
    ensures { Gives read_of result (rules.with_next before (rest_of at.entry) seen) }
{
    let next = transfer(alloc, at, seen)?;
    let list = decided(at.column, before, next.value)?;
    Ok(Parsed {
        value: list,
        rest: next.rest,
        seen: next.seen,
    })
}

/// These transfers, the one that stands here, and at most so many more, each behind a `;`.
#[tactic(auto, using(crate::proofs::Rooms::last_one, crate::proofs::Rooms::one_more))]
pub fn transfers<'a>(
    alloc: Global,
    more: u8,
    before: Items<PatTransfer>,
    at: Cursor<'a>,
    seen: Operands,
) -> Result<Parsed<'a, Items<PatTransfer>>, LineError>
    ensures { Gives read_of result (rules.transfers more before (rest_of at.entry) seen) }
{
    let list = with_next(alloc, before, at, seen)?;
    if more == 0 || !says(list.rest, b";") {
        return Ok(list);
    }
    transfers(
        alloc,
        more - 1,
        list.value,
        behind_word(list.rest),
        list.seen,
    )
}

fn sets_cc(transfer: &PatTransfer) -> bool
    ensures { result ≡ rules.sets_cc transfer.now }
{
    matches!(transfer, PatTransfer::Cc(_, _))
}

/// Whether one of these transfers sets `cc`.
fn any_sets_cc(pattern: &[PatTransfer]) -> bool
    ensures { result ≡ list_any rules.sets_cc pattern.now }
{
    pattern.iter().any(|transfer| sets_cc(transfer))
}

/// `clobber cc` behind these transfers, at this column, is NeverMatches where one of them sets `cc`.
fn clobber_may_stand(column: u32, pattern: &[PatTransfer]) -> Result<(), LineFault>
    ensures { Tells (λ _. tt) result (rules.clobber_may_stand column pattern.now) }
{
    if any_sets_cc(pattern) {
        return Err(LineFault::at(column, Kind::NeverMatches));
    }
    Ok(())
}

/// Whether `clobber cc` stands here, behind these transfers.
#[tactic(auto, unfolding(crate::specs::ListRules::clobber_in))]
pub fn clobber<'a>(
    pattern: &[PatTransfer],
    at: Cursor<'a>,
    seen: Operands,
) -> Result<Parsed<'a, bool>, LineFault>
    ensures { Tells read_of result (rules.clobber_in pattern.now (rest_of at.entry) seen) }
{
    if !says(at, b"clobber") {
        return Ok(Parsed {
            value: false,
            rest: at,
            seen,
        });
    }
    clobber_may_stand(at.column, pattern)?;
    let rest = keyword(behind_word(at), b"cc")?;
    Ok(Parsed {
        value: true,
        rest,
        seen,
    })
}

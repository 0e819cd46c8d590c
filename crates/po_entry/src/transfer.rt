//! One transfer of an entry, read for its form. Where one of its terms is beyond the limits, the transfer is none.

ghost use Rattle.std.specs.Prelude.{◌≡◌};
ghost use Rattle.std.specs.Option.{option_map};
ghost use Rattle.po_lines.specs.Faults.{Gives, Tells};
ghost use Rattle.po_model.specs.declared.machine.PatCond.TheVariants as cond;
ghost use Rattle.po_model.specs.declared.machine.PatTransfer.TheVariants as transfer;
ghost use Rattle.po_pattern.specs.Rests.{rest_of, read_of};
ghost use Rattle.po_entry.specs.Transfers as transfers;

use crate::pair::Pair;
use crate::words::{behind_word, ended, keyword, says, word_here};
use po_lines::{LineError, LineFault, same_text};
use po_model::{PatCond, PatReg, PatTerm, PatTransfer};
use po_pattern::{Cursor, Operands, Parsed, name_length};
use po_text::Kind;
use po_word::Rel;
use std::alloc::Global;

/// A register, which is a word of its own.
#[tactic(auto, unfolding(crate::specs::Transfers::register))]
fn register<'a>(at: Cursor<'a>, seen: Operands) -> Result<Parsed<'a, PatReg>, LineFault>
    ensures { Tells read_of result (transfers.register (rest_of at.entry) seen) }
{
    let register = po_pattern::register(at, seen)?;
    ended(register)
}

/// A whole term, which is a word of its own.
#[tactic(auto, unfolding(crate::specs::Transfers::term))]
fn term<'a>(
    alloc: Global,
    at: Cursor<'a>,
    seen: Operands,
) -> Result<Parsed<'a, Option<PatTerm>>, LineError>
    ensures { Gives read_of result (transfers.term (rest_of at.entry) seen) }
{
    let term = po_pattern::term(alloc, at, seen)?;
    Ok(ended(term)?)
}

/// The address in `M[t]`, which is a word of its own.
#[tactic(auto, unfolding(crate::specs::Transfers::address))]
fn address<'a>(
    alloc: Global,
    at: Cursor<'a>,
    seen: Operands,
) -> Result<Parsed<'a, Option<PatTerm>>, LineError>
    ensures { Gives read_of result (transfers.address (rest_of at.entry) seen) }
{
    let address = po_pattern::address(alloc, at, seen)?;
    Ok(ended(address)?)
}

/// A label, which is a word of its own.
#[tactic(auto, unfolding(crate::specs::Transfers::label))]
fn label<'a>(at: Cursor<'a>, seen: Operands) -> Result<Parsed<'a, u8>, LineFault>
    ensures { Tells read_of result (transfers.label (rest_of at.entry) seen) }
{
    let label = po_pattern::label(at, seen)?;
    ended(label)
}

/// A symbol, which is a word of its own.
#[tactic(auto, unfolding(crate::specs::Transfers::symbol))]
fn symbol<'a>(at: Cursor<'a>, seen: Operands) -> Result<Parsed<'a, u8>, LineFault>
    ensures { Tells read_of result (transfers.symbol (rest_of at.entry) seen) }
{
    let symbol = po_pattern::symbol(at, seen)?;
    ended(symbol)
}

/// Two terms, where both are within the limits.
fn pair_of(left: Option<PatTerm>, right: Option<PatTerm>) -> Option<Pair>
    ensures { result ≡ transfers.pair_of left right }
{
    let Some(left) = left else {
        return None;
    };
    let Some(right) = right else {
        return None;
    };
    Some(Pair { left, right })
}

/// `t ? u`
#[tactic(auto, unfolding(crate::specs::Transfers::compared))]
fn compared<'a>(
    alloc: Global,
    at: Cursor<'a>,
    seen: Operands,
) -> Result<Parsed<'a, Option<Pair>>, LineError>
    ensures { Gives read_of result (transfers.compared (rest_of at.entry) seen) }
{
    let left = term(alloc, at, seen)?;
    let sign = keyword(left.rest, b"?")?;
    let right = term(alloc, sign, left.seen)?;
    Ok(Parsed {
        value: pair_of(left.value, right.value),
        rest: right.rest,
        seen: right.seen,
    })
}

fn set_of(to: PatReg, term: Option<PatTerm>) -> Option<PatTransfer>
    ensures { result ≡ option_map (transfer.Set to) term }
{
    term.map(|term| PatTransfer::Set(to, term))
}

/// `r := t`
#[tactic(auto, unfolding(crate::specs::Transfers::set_in))]
fn set<'a>(
    alloc: Global,
    at: Cursor<'a>,
    seen: Operands,
) -> Result<Parsed<'a, Option<PatTransfer>>, LineError>
    ensures { Gives read_of result (transfers.set_in (rest_of at.entry) seen) }
{
    let to = register(at, seen)?;
    let sign = keyword(to.rest, b":=")?;
    let term = term(alloc, sign, to.seen)?;
    Ok(Parsed {
        value: set_of(to.value, term.value),
        rest: term.rest,
        seen: term.seen,
    })
}

fn cc_of(pair: Option<Pair>) -> Option<PatTransfer>
    ensures { result ≡ option_map (λ p. transfer.Cc p.left p.right) pair }
{
    pair.map(|pair| PatTransfer::Cc(pair.left, pair.right))
}

/// `cc := t ? u`
#[tactic(auto, unfolding(crate::specs::Transfers::cc_in))]
fn cc<'a>(
    alloc: Global,
    at: Cursor<'a>,
    seen: Operands,
) -> Result<Parsed<'a, Option<PatTransfer>>, LineError>
    ensures { Gives read_of result (transfers.cc_in (rest_of at.entry) seen) }
{
    let target = keyword(at, b"cc")?;
    let sign = keyword(target, b":=")?;
    let pair = compared(alloc, sign, seen)?;
    Ok(Parsed {
        value: cc_of(pair.value),
        rest: pair.rest,
        seen: pair.seen,
    })
}

fn store_of(pair: Option<Pair>) -> Option<PatTransfer>
    ensures { result ≡ option_map (λ p. transfer.Store p.left p.right) pair }
{
    pair.map(|pair| PatTransfer::Store(pair.left, pair.right))
}

/// `M[t] := u`
#[tactic(auto, unfolding(crate::specs::Transfers::store_in))]
fn store<'a>(
    alloc: Global,
    at: Cursor<'a>,
    seen: Operands,
) -> Result<Parsed<'a, Option<PatTransfer>>, LineError>
    ensures { Gives read_of result (transfers.store_in (rest_of at.entry) seen) }
{
    let address = address(alloc, at, seen)?;
    let sign = keyword(address.rest, b":=")?;
    let value = term(alloc, sign, address.seen)?;
    Ok(Parsed {
        value: store_of(pair_of(address.value, value.value)),
        rest: value.rest,
        seen: value.seen,
    })
}

/// `goto @k`
#[tactic(auto, unfolding(crate::specs::Transfers::goto_in))]
fn goto<'a>(at: Cursor<'a>, seen: Operands) -> Result<Parsed<'a, u8>, LineFault>
    ensures { Tells read_of result (transfers.goto_in (rest_of at.entry) seen) }
{
    let target = keyword(at, b"goto")?;
    label(target, seen)
}

/// The relation of this name.
fn relation_of(name: &[u8]) -> Option<Rel>
    ensures { result ≡ transfers.relation_of name.now }
{
    match name {
        b"eq" => Some(Rel::Eq),
        b"ne" => Some(Rel::Ne),
        b"lt" => Some(Rel::Lt),
        b"le" => Some(Rel::Le),
        b"gt" => Some(Rel::Gt),
        b"ge" => Some(Rel::Ge),
        b"ltu" => Some(Rel::Ltu),
        b"geu" => Some(Rel::Geu),
        _ => None,
    }
}

/// A relation.
#[tactic(auto, unfolding(crate::specs::Transfers::relation))]
fn relation<'a>(at: Cursor<'a>, seen: Operands) -> Result<Parsed<'a, Rel>, LineFault>
    ensures { Tells read_of result (transfers.relation (rest_of at.entry) seen) }
{
    match relation_of(word_here(at)) {
        None => Err(LineFault::at(at.column, Kind::Word)),
        Some(relation) => Ok(Parsed {
            value: relation,
            rest: behind_word(at),
            seen,
        }),
    }
}

fn branch_of(compares: Option<PatCond>, relation: Rel, k: u8) -> Option<PatTransfer>
    ensures { result ≡ option_map (λ c. transfer.If c relation k) compares }
{
    compares.map(|condition| PatTransfer::If(condition, relation, k))
}

/// `REL goto @k`, behind what is compared.
#[tactic(auto, unfolding(crate::specs::Transfers::branch_in))]
fn branch<'a>(
    compares: Option<PatCond>,
    at: Cursor<'a>,
    seen: Operands,
) -> Result<Parsed<'a, Option<PatTransfer>>, LineFault>
    ensures { Tells read_of result (transfers.branch_in compares (rest_of at.entry) seen) }
{
    let relation = relation(at, seen)?;
    let label = goto(relation.rest, relation.seen)?;
    Ok(Parsed {
        value: branch_of(compares, relation.value, label.value),
        rest: label.rest,
        seen: label.seen,
    })
}

fn two_of(pair: Option<Pair>) -> Option<PatCond>
    ensures { result ≡ option_map (λ p. cond.Two p.left p.right) pair }
{
    pair.map(|pair| PatCond::Two(pair.left, pair.right))
}

/// `if cc REL goto @k`, `if t ? u REL goto @k`
#[tactic(auto, unfolding(crate::specs::Transfers::if_in))]
fn conditional<'a>(
    alloc: Global,
    at: Cursor<'a>,
    seen: Operands,
) -> Result<Parsed<'a, Option<PatTransfer>>, LineError>
    ensures { Gives read_of result (transfers.if_in (rest_of at.entry) seen) }
{
    let what = keyword(at, b"if")?;
    if says(what, b"cc") {
        return Ok(branch(Some(PatCond::Cc), behind_word(what), seen)?);
    }
    let pair = compared(alloc, what, seen)?;
    Ok(branch(two_of(pair.value), pair.rest, pair.seen)?)
}

/// `call &k`
#[tactic(auto, unfolding(crate::specs::Transfers::call_in))]
fn call<'a>(at: Cursor<'a>, seen: Operands) -> Result<Parsed<'a, u8>, LineFault>
    ensures { Tells read_of result (transfers.call_in (rest_of at.entry) seen) }
{
    let target = keyword(at, b"call")?;
    symbol(target, seen)
}

/// Whether the name here is `M`.
fn begins_memory(at: Cursor) -> bool
    ensures { result ≡ transfers.begins_memory (rest_of at.entry) }
{
    same_text(&at.bytes[..name_length(at.bytes)], b"M")
}

/// A transfer that sets `cc`, a word of memory or a register.
#[tactic(auto, unfolding(crate::specs::Transfers::setting_in))]
fn setting<'a>(
    alloc: Global,
    at: Cursor<'a>,
    seen: Operands,
) -> Result<Parsed<'a, Option<PatTransfer>>, LineError>
    ensures { Gives read_of result (transfers.setting_in (rest_of at.entry) seen) }
{
    if says(at, b"cc") {
        return cc(alloc, at, seen);
    }
    if begins_memory(at) {
        return store(alloc, at, seen);
    }
    set(alloc, at, seen)
}

/// A transfer, by its first word.
#[tactic(auto, unfolding(crate::specs::Transfers::transfer_in))]
pub fn transfer<'a>(
    alloc: Global,
    at: Cursor<'a>,
    seen: Operands,
) -> Result<Parsed<'a, Option<PatTransfer>>, LineError>
    ensures { Gives read_of result (transfers.transfer_in (rest_of at.entry) seen) }
{
    if says(at, b"goto") {
        let label = goto(at, seen)?;
        return Ok(Parsed {
            value: Some(PatTransfer::Goto(label.value)),
            rest: label.rest,
            seen: label.seen,
        });
    }
    if says(at, b"call") {
        let symbol = call(at, seen)?;
        return Ok(Parsed {
            value: Some(PatTransfer::Call(symbol.value)),
            rest: symbol.rest,
            seen: symbol.seen,
        });
    }
    if says(at, b"ret") {
        return Ok(Parsed {
            value: Some(PatTransfer::Ret),
            rest: behind_word(at),
            seen,
        });
    }
    if says(at, b"if") {
        return conditional(alloc, at, seen);
    }
    setting(alloc, at, seen)
}

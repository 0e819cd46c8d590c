//! Reading terms. The depth that is left is carried down, so that no text overruns the stack.
ghost use Rattle.std.specs.Prelude.{◌≡◌, codes, IfErr, ◌+◌, ◌<◌, ◌≤◌, ◌≢◌, ℕ, Option, Some, MatchOption, IfOk};
ghost use Rattle.std.specs.Prelude.{IfSome, IfNone};
ghost use Rattle.std.specs.Option.{option_map};
ghost use Rattle.po_term.specs.Tree.{Tree, tree_size, Unary, Binary};
ghost use Rattle.po_term.specs.Tree.{Read as ReadAt};
ghost use Rattle.po_term.specs.Terms.{Place, tree_of};
ghost use Rattle.po_termtext.specs.TermText.{term_text};
ghost use Rattle.po_term.specs.Form.{WellFormedTerm};
ghost use Rattle.po_termtext.specs.Form.{HasNumbers};
ghost use Rattle.po_termtext.specs.Reading as reading;
ghost use Rattle.po_termtext.specs.Gives.{Gives, seen, operator_shown};

use crate::refusal::Refusal;
use crate::word::{behind, first_word, leaf, operator};
use po_term::Term;
use po_word::{Bin, OutOfMemory, Un};
use std::alloc::Global;

/// No term is deeper (docs/LANGUAGE.md, "Terms").
const MAX_DEPTH: u32 = 16;
/// No term has more nodes (docs/LANGUAGE.md, "Terms").
const MAX_NODES: u32 = 64;

/// The term that a text is the printed text of (docs/LANGUAGE.md, "Term text"); `None` where it is that of no term of
/// at most 64 nodes and depth 16. Only memory can fail. The text is read once, from left to right.
pub fn read_term(alloc: Global, text: &[u8]) -> Result<Option<Term>, OutOfMemory>
    ensures found { IfOk result (λ read. IfSome read (λ t. WellFormedTerm (tree_of t) × (text.now ≡ term_text (tree_of t)))) }
    ensures none { IfOk result (λ read. IfNone read ((t : Tree ℕ Place) → WellFormedTerm t → text.now ≢ term_text t)) }
    // A printed term is read as that term.
    ensures again { IfOk result (λ read. (t : Tree ℕ Place) → WellFormedTerm t → text.now ≡ term_text t → option_map tree_of
        read ≡ Some t) }
{
    let read = read_text(alloc, text)?;
    Ok(read)
}

/// A text is that of at most one term, whatever its size and depth (docs/LANGUAGE.md, "Term text").
pub fn one_term_a_text()
    ensures { (t u : Tree ℕ Place) → HasNumbers t → HasNumbers u → term_text t ≡ term_text u → t ≡ u }
{}

#[tactic(auto, unfolding(crate::specs::Reading::text_in))]
fn read_text(alloc: Global, text: &[u8]) -> Result<Option<Term>, OutOfMemory>
    ensures { IfOk result (λ read. option_map tree_of read ≡ reading.text_in text.now) }
{
    match term(alloc, MAX_DEPTH, text) {
        Ok(parsed) => Ok(whole(parsed)),
        Err(Refusal::NoTerm) => Ok(None),
        Err(Refusal::Memory) => Err(OutOfMemory),
    }
}

/// The term, where nothing stands behind it and it is not too large.
#[tactic(auto, unfolding(crate::specs::Reading::whole))]
fn whole(parsed: Parsed) -> Option<Term>
    ensures { option_map tree_of result ≡ reading.whole (seen parsed.entry) }
{
    if parsed.rest.is_empty() && nodes_left(&parsed.term, MAX_NODES).is_some() {
        Some(parsed.term)
    } else {
        None
    }
}

/// A term at the front of a text, and the text behind it.
#[derive(Drop)]
pub struct Parsed<'a> {
    pub term: Term,
    pub rest: &'a [u8],
}

/// An operator at the front of a text, and the text behind it.
#[derive(Clone, Copy, Debug)]
pub struct Operator<'a> {
    pub op: Bin,
    pub rest: &'a [u8],
}

fn boxed(alloc: Global, term: Term) -> Result<Box<Term>, Refusal>
    ensures value { IfOk result (λ b. b.value ≡ term) }
    ensures full { IfErr result (λ e. e ≡ Refusal.Memory) }
{
    match Box::new(alloc, term) {
        Ok(b) => Ok(b),
        Err(_) => Err(Refusal::Memory),
    }
}

/// The text behind a mark that has to stand at its front.
fn expect<'a>(mark: &[u8], text: &'a [u8]) -> Result<&'a [u8], Refusal>
    ensures { Gives (λ rest. rest.now) result (reading.behind mark.now text.now) }
{
    match behind(mark, text) {
        Some(rest) => Ok(rest),
        None => Err(Refusal::NoTerm),
    }
}

/// An operator between two blanks.
#[tactic(auto, unfolding(crate::specs::Reading::operator_seen))]
fn operator_at(text: &[u8]) -> Result<Operator<'_>, Refusal>
    ensures { Gives operator_shown result (reading.operator_seen text.now) }
{
    let word = first_word(expect(b" ", text)?);
    let Some(op) = operator(word.word) else {
        return Err(Refusal::NoTerm);
    };
    let rest = expect(b" ", word.rest)?;
    Ok(Operator { op, rest })
}

#[tactic(auto, unfolding(crate::specs::Reading::leaf_seen))]
fn leaf_at(text: &[u8]) -> Result<Parsed<'_>, Refusal>
    ensures { Gives seen result (reading.leaf_seen text.now) }
{
    let word = first_word(text);
    match leaf(word.word) {
        Some(term) => Ok(Parsed {
            term,
            rest: word.rest,
        }),
        None => Err(Refusal::NoTerm),
    }
}

#[tactic(auto, unfolding(crate::specs::Reading::closed))]
fn memory<'a>(alloc: Global, address: Parsed<'a>) -> Result<Parsed<'a>, Refusal>
    ensures { Gives seen result (reading.closed ReadAt (codes "]") (seen address.entry)) }
{
    let rest = expect(b"]", address.rest)?;
    let term = Term::Mem(boxed(alloc, address.term)?);
    Ok(Parsed { term, rest })
}

#[tactic(auto, unfolding(crate::specs::Reading::closed))]
fn unary<'a>(alloc: Global, op: Un, operand: Parsed<'a>) -> Result<Parsed<'a>, Refusal>
    ensures { Gives seen result (reading.closed (Unary op) (codes ")") (seen operand.entry)) }
{
    let rest = expect(b")", operand.rest)?;
    let term = Term::Un(op, boxed(alloc, operand.term)?);
    Ok(Parsed { term, rest })
}

#[tactic(auto, unfolding(crate::specs::Reading::closed))]
fn binary<'a>(alloc: Global, op: Bin, left: Term, right: Parsed<'a>) -> Result<Parsed<'a>, Refusal>
    ensures { Gives seen result (reading.closed (Binary op (tree_of left)) (codes ")") (seen right.entry)) }
{
    let rest = expect(b")", right.rest)?;
    let left = boxed(alloc, left)?;
    let right = boxed(alloc, right.term)?;
    Ok(Parsed {
        term: Term::Bin(op, left, right),
        rest,
    })
}

/// A term of at most this depth at the front of a text.
#[tactic(auto, using(crate::proofs::Depths::term_in_none, crate::proofs::Depths::term_in_more))]
fn term<'a>(alloc: Global, depth: u32, text: &'a [u8]) -> Result<Parsed<'a>, Refusal>
    ensures { Gives seen result (reading.term_in depth text.now) }
{
    if depth == 0 {
        return Err(Refusal::NoTerm);
    }
    if let Some(inner) = behind(b"(", text) {
        let left = term(alloc, depth - 1, inner)?;
        let operator = operator_at(left.rest)?;
        let right = term(alloc, depth - 1, operator.rest)?;
        return binary(alloc, operator.op, left.term, right);
    }
    if let Some(inner) = behind(b"M[", text) {
        return memory(alloc, term(alloc, depth - 1, inner)?);
    }
    if let Some(inner) = behind(b"neg(", text) {
        return unary(alloc, Un::Neg, term(alloc, depth - 1, inner)?);
    }
    if let Some(inner) = behind(b"not(", text) {
        return unary(alloc, Un::Not, term(alloc, depth - 1, inner)?);
    }
    leaf_at(text)
}

/// What is left of a number of nodes without those of a term; none where the term has more.
#[tactic(auto, using(crate::proofs::Sizes::some_node))]
fn nodes_left(term: &Term, nodes: u32) -> Option<u32>
    ensures { MatchOption result (nodes < tree_size (tree_of term.now)) (λ left. left + tree_size (tree_of term.now)
        ≡ nodes) }
{
    if nodes == 0 {
        return None;
    }
    let others = nodes - 1;
    match term {
        Term::Num(_) | Term::Reg(_) | Term::Addr(_) => Some(others),
        Term::Mem(a) | Term::Un(_, a) => nodes_left(a, others),
        Term::Bin(_, a, b) => nodes_left(b, nodes_left(a, others)?),
    }
}

//! The operation of a line, from the words behind its first.

ghost use Rattle.std.specs.Prelude.{◌≡◌, ◌≤◌, map, IfOk};
ghost use Rattle.po_lines.specs.Faults.{Gives, Tells};
ghost use Rattle.po_lines.specs.Words.{seen};
ghost use Rattle.po_ir.specs.Lines as lines;

use crate::unit::{Key, Op};
use po_lines::{
    LineError, LineFault, Word, first_word, name, name_alone, no_more, rest_words, small_number,
    word_number_alone,
};
use std::alloc::Global;

/// The number of an argument, and no further word.
#[tactic(auto, unfolding(crate::specs::Lines::arg_in_line))]
fn arg_alone(words: &[Word], end: u32) -> Result<u8, LineFault>
    ensures { Tells (λ k. k) result (lines.arg_in_line (map seen words.now) end) }
{
    let word = first_word(words, end)?;
    let number = small_number(&word, 3)?;
    no_more(rest_words(words))?;
    Ok(number as u8)
}

/// A function's name and the number of its arguments, and no further word.
#[tactic(auto, unfolding(crate::specs::Lines::call_in_line))]
fn call(alloc: Global, words: &[Word], end: u32) -> Result<Op, LineError>
    ensures { Gives (λ o. o) result (lines.call_in_line (map seen words.now) end) }
{
    let word = first_word(words, end)?;
    let name = name(alloc, &word)?;
    let rest = rest_words(words);
    let word = first_word(rest, end)?;
    let count = small_number(&word, 4)?;
    no_more(rest_words(rest))?;
    Ok(Op::Call(name, count as u8))
}

/// The operation of a line whose first word says this.
#[tactic(auto, unfolding(crate::specs::Lines::op_in))]
pub fn operation(alloc: Global, key: Key, words: &[Word], end: u32) -> Result<Op, LineError>
    ensures { Gives (λ o. o) result (lines.op_in key (map seen words.now) end) }
{
    match key {
        Key::Con => Ok(Op::Con(word_number_alone(words, end)?)),
        Key::Adl => Ok(Op::Adl(word_number_alone(words, end)?)),
        Key::Adg => Ok(Op::Adg(name_alone(alloc, words, end)?)),
        Key::Lod => Ok(alone(words, Op::Lod)?),
        Key::Sto => Ok(alone(words, Op::Sto)?),
        Key::Bin(op) => Ok(alone(words, Op::Bin(op))?),
        Key::Un(op) => Ok(alone(words, Op::Un(op))?),
        Key::Dup => Ok(alone(words, Op::Dup)?),
        Key::Pop => Ok(alone(words, Op::Pop)?),
        Key::Lab => Ok(Op::Lab(name_alone(alloc, words, end)?)),
        Key::Jmp => Ok(Op::Jmp(name_alone(alloc, words, end)?)),
        Key::Br(rel) => Ok(Op::Br(rel, name_alone(alloc, words, end)?)),
        Key::Arg => Ok(Op::Arg(arg_alone(words, end)?)),
        Key::Call => call(alloc, words, end),
        Key::Ret => Ok(alone(words, Op::Ret)?),
    }
}

/// An operation of one word, and no further word.
#[tactic(auto, unfolding(crate::specs::Lines::alone))]
fn alone(words: &[Word], op: Op) -> Result<Op, LineFault>
    ensures { Tells (λ o. o) result (lines.alone op (map seen words.now)) }
{
    no_more(words)?;
    Ok(op)
}

/// Where the second word of a line stands, from the words behind its first.
pub fn second_column(words: &[Word]) -> u32
    ensures { result ≡ lines.second_column (map seen words.now) }
{
    match words {
        [] => 1,
        [first, ..] => first.column,
    }
}

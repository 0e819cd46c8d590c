//! The lines of a machine's entries, made once for many units: runs of bytes with an operand behind each.
ghost use Rattle.std.specs.Prelude.{◌≡◌, ◌++◌, ◌∷◌, [], ℕ, List, IfOk, OnOk, map, codes};
ghost use Rattle.std.specs.List.{flat_map};
ghost use Rattle.po_emit.specs.Texts.{piece_text};
ghost use Rattle.po_emit.specs.Templates.{text_behind, part_text, line_text, draft_text, entry_text, AreTemplatesOf};

use po_model::{Entry, Machine, Piece};
use po_word::OutOfMemory;
use std::alloc::Global;
use std::mem;

/// A part of a line: bytes that stand for themselves, and the digit of the operand behind them. The last part of a
/// line has none.
#[derive(Drop)]
pub(crate) struct Part {
    pub(crate) bytes: Vec<u8>,
    pub(crate) digit: Option<u8>,
}

/// The line of an entry: two spaces, its template and a line feed, in parts.
#[derive(Drop)]
pub(crate) struct Line {
    pub(crate) parts: Vec<Part>,
}

/// The lines of a machine's entries (docs/DESCRIPTION.md, "Templates").
#[derive(Drop)]
pub struct Templates {
    pub(crate) lines: Vec<Line>,
}

/// A line whose last bytes aren't a part yet.
#[derive(Drop)]
struct Draft {
    parts: Vec<Part>,
    bytes: Vec<u8>,
}

fn push_part(parts: &mut Vec<Part>, part: Part) -> Result<(), OutOfMemory>
    ensures { OnOk result (parts.new.items ≡ parts.old.items ++ part ∷ []) }
{
    match parts.push(part) {
        Ok(()) => Ok(()),
        Err(_) => Err(OutOfMemory),
    }
}

impl Draft {
    /// Makes a part of the last bytes, with the digit of the operand behind them.
    fn close(&mut self, alloc: Global, digit: Option<u8>) -> Result<(), OutOfMemory>
        ensures bytes { OnOk result (self.new.bytes.items ≡ []) }
        ensures parts { OnOk result ((text : ℕ → List ℕ) → flat_map (part_text text) self.new.parts.items
            ≡ draft_text text self.old ++ text_behind text digit) }
    {
        let bytes = mem::replace(&mut self.bytes, Vec::new(alloc));
        push_part(&mut self.parts, Part { bytes, digit })
    }

    fn add_byte(&mut self, b: u8) -> Result<(), OutOfMemory>
        ensures bytes { OnOk result (self.new.bytes.items ≡ self.old.bytes.items ++ b ∷ []) }
        ensures parts { OnOk result (self.new.parts.items ≡ self.old.parts.items) }
    {
        self.bytes.push(b)?;
        Ok(())
    }

    /// Adds a piece of a template.
    fn add(&mut self, alloc: Global, piece: Piece) -> Result<(), OutOfMemory>
        ensures { OnOk result ((text : ℕ → List ℕ) → draft_text text self.new
            ≡ draft_text text self.old ++ piece_text text piece) }
    {
        match piece {
            Piece::Byte(b) => self.add_byte(b),
            Piece::Reg(k) => self.close(alloc, Some(k)),
            Piece::Num(k) => self.close(alloc, Some(k)),
            Piece::Label(k) => self.close(alloc, Some(k)),
            Piece::Sym(k) => self.close(alloc, Some(k)),
        }
    }
}

/// Two spaces, so far.
fn indent(alloc: Global) -> Result<Draft, OutOfMemory>
    ensures { IfOk result (λ d. (text : ℕ → List ℕ) → draft_text text d ≡ codes "  ") }
{
    let bytes = Vec::from_slice(alloc, b"  ")?;
    Ok(Draft {
        parts: Vec::new(alloc),
        bytes,
    })
}

/// The line, with a line feed at its end.
fn finish(alloc: Global, draft: Draft) -> Result<Line, OutOfMemory>
    ensures { IfOk result (λ l. (text : ℕ → List ℕ) → line_text text l ≡ draft_text text draft ++ codes "\n") }
{
    let mut draft = draft;
    draft.add_byte(b'\n')?;
    draft.close(alloc, None)?;
    Ok(Line { parts: draft.parts })
}

/// The line of an entry.
fn line_of(alloc: Global, entry: &Entry) -> Result<Line, OutOfMemory>
    ensures { IfOk result (λ l. (text : ℕ → List ℕ) → line_text text l ≡ entry_text text entry.now) }
{
    let mut draft = indent(alloc)?;
    for piece in entry.template.as_slice() {
        draft.add(alloc, *piece)?;
    }
    let line = finish(alloc, draft)?;
    Ok(line)
}

fn push_line(lines: &mut Vec<Line>, line: Line) -> Result<(), OutOfMemory>
    ensures { OnOk result (lines.new.items ≡ lines.old.items ++ line ∷ []) }
{
    match lines.push(line) {
        Ok(()) => Ok(()),
        Err(_) => Err(OutOfMemory),
    }
}

impl Templates {
    /// The lines of a machine's entries (docs/DESCRIPTION.md, "Templates").
    pub fn new(alloc: Global, m: &Machine) -> Result<Templates, OutOfMemory>
        ensures { IfOk result (λ ts. AreTemplatesOf m.now ts) }
    {
        let mut lines = Vec::new(alloc);
        for e in m.entries.as_slice() {
            push_line(&mut lines, line_of(alloc, e)?)?;
        }
        Ok(Templates { lines })
    }
}

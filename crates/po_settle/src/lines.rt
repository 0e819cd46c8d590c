//! The lines that stand behind the assembly in the mode `opt`: how many rules there are, and each in a line.
ghost use Rattle.std.specs.Prelude.{◌≡◌, ◌++◌, codes, IfOk, OnOk};
ghost use Rattle.std.specs.List.{flat_map};
ghost use Rattle.po_settle.specs.Texts.{texts_of};
ghost use Rattle.po_settle.specs.Lines.{count_line, line_of, rules_text};

use itoa::Buffer;
use po_termtext::push;
use po_word::OutOfMemory;
use std::alloc::Global;

/// The line that says how many rules there are.
fn push_count(out: &mut Vec<u8>, count: usize) -> Result<(), OutOfMemory>
    ensures { OnOk result (out.new.items ≡ out.old.items ++ count_line count) }
{
    push(out, b"rules ")?;
    push(out, Buffer::new().format(count).as_bytes())?;
    push(out, b"\n")
}

/// The line of a rule.
fn push_line(out: &mut Vec<u8>, text: &[u8]) -> Result<(), OutOfMemory>
    ensures { OnOk result (out.new.items ≡ out.old.items ++ line_of text.now) }
{
    push(out, text)?;
    push(out, b"\n")
}

/// The lines of all rules.
fn push_lines(out: &mut Vec<u8>, texts: &[Vec<u8>]) -> Result<(), OutOfMemory>
    ensures { OnOk result (out.new.items ≡ out.old.items ++ flat_map line_of (texts_of texts.now)) }
{
    for text in texts {
        push_line(out, text)?;
    }
    Ok(())
}

/// What stands behind the assembly, given the texts of the rules: a line that says how many, and a line for each
/// (docs/RULES.md, "The rules of a run"). It fails only where memory is refused.
pub fn rules_text(alloc: Global, texts: &[Vec<u8>]) -> Result<Vec<u8>, OutOfMemory>
    ensures { IfOk result (λ out. out.items ≡ rules_text (texts_of texts.now)) }
{
    let mut out = Vec::new(alloc);
    push_count(&mut out, texts.len())?;
    push_lines(&mut out, texts)?;
    Ok(out)
}

//! Printing: each `push_` function adds the text of one thing at the end of what was printed so far.

ghost use Rattle.std.specs.Prelude.{◌≡◌, ◌++◌, ◌∷◌, [], map, IfOk, OnOk};
ghost use Rattle.std.specs.List.{flat_map};
ghost use Rattle.po_entry.specs.EntryText.{entry_text};
ghost use Rattle.po_model.specs.Machines.{IsMachine};
ghost use Rattle.po_mdread.specs.MachineText.{head_text, lines_text, machine_text};

use po_entry::print_entry;
use po_model::{Entry, Machine};
use po_name::Name;
use po_word::OutOfMemory;
use std::alloc::Global;

/// The description of a machine, which is one that a description may tell of: no comments, no empty lines, one space
/// between two words of a head line (docs/DESCRIPTION.md). Only memory can fail.
#[tactic(auto, unfolding(crate::specs::MachineText::machine_text, crate::specs::MachineText::machine_lines))]
pub fn print_machine(alloc: Global, m: &Machine) -> Result<Vec<u8>, OutOfMemory>
    requires { IsMachine m.now }
    ensures { IfOk result (λ text. text.items ≡ machine_text m.now) }
{
    let mut out = Vec::new(alloc);
    push_named(&mut out, b"machine", &m.name)?;
    push_named(&mut out, b"frame", &m.frame)?;
    push_named(&mut out, b"result", &m.result)?;
    push_head(&mut out, b"args", m.args.as_slice())?;
    push_head(&mut out, b"regs", m.regs.as_slice())?;
    push_entries(alloc, &mut out, m.entries.as_slice())?;
    push(&mut out, b"end\n")?;
    Ok(out)
}

fn push(out: &mut Vec<u8>, text: &[u8]) -> Result<(), OutOfMemory>
    ensures { OnOk result (out.new.items ≡ out.old.items ++ text.now) }
{
    out.extend_from_slice(text)?;
    Ok(())
}

/// A head line with one name.
fn push_named(out: &mut Vec<u8>, word: &[u8], name: &Name) -> Result<(), OutOfMemory>
    ensures { OnOk result (out.new.items ≡ out.old.items ++ (head_text word.now (name.now ∷ []) ++ 10 ∷ [])) }
{
    push(out, word)?;
    push(out, b" ")?;
    push(out, name.bytes())?;
    push(out, b"\n")
}

/// A head line with these names.
#[tactic(auto, using(crate::proofs::Joined::joined_is))]
fn push_head(out: &mut Vec<u8>, word: &[u8], names: &[Name]) -> Result<(), OutOfMemory>
    ensures { OnOk result (out.new.items ≡ out.old.items ++ (head_text word.now names.now ++ 10 ∷ [])) }
{
    push(out, word)?;
    push_names(out, names)?;
    push(out, b"\n")
}

/// Names, each behind a space.
fn push_names(out: &mut Vec<u8>, names: &[Name]) -> Result<(), OutOfMemory>
    ensures { OnOk result (out.new.items ≡ out.old.items ++ flat_map (λ n. 32 ∷ n) names.now) }
{
    for name in names {
        push(out, b" ")?;
        push(out, name.bytes())?;
    }
    Ok(())
}

/// Entries, each on its line.
fn push_entries(alloc: Global, out: &mut Vec<u8>, entries: &[Entry]) -> Result<(), OutOfMemory>
    ensures { OnOk result (out.new.items ≡ out.old.items ++ lines_text (map entry_text entries.now)) }
{
    for entry in entries {
        print_entry(alloc, entry, out)?;
        push(out, b"\n")?;
    }
    Ok(())
}

//! A law over the definitions, as the contract of an empty function.

ghost use Rattle.std.specs.Prelude.{◌≡◌, Ok};
ghost use Rattle.po_model.specs.declared.machine.Entry.{Entry};
ghost use Rattle.po_model.specs.Entries.{IsEntry};
ghost use Rattle.po_entry.specs.EntryText.{entry_text};
ghost use Rattle.po_entry.specs.Reading.{entry_in};

/// The printed line of an entry that a description may have is read as that entry (docs/DESCRIPTION.md, "Entries").
pub fn printed_entry_again()
    ensures { (e : Entry) → IsEntry e → entry_in (entry_text e) ≡ Ok e }
{}

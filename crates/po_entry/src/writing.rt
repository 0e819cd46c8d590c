//! Laws of an entry's line, as the contracts of empty functions: which lines are read as an entry, by how the entry
//! may be written; and what a wrong word's fault depends on.

ghost use Rattle.std.specs.Prelude.{◌≡◌, ℕ, List, Ok};
ghost use Rattle.po_model.specs.declared.machine.Entry.{Entry};
ghost use Rattle.po_model.specs.Entries.{IsEntry};
ghost use Rattle.po_entry.specs.EntryText.{entry_text};
ghost use Rattle.po_entry.specs.Reading.{entry_in};
ghost use Rattle.po_entry.specs.Writing.{IsWritten};
ghost use Rattle.po_entry.specs.Kept.{IsKept, IsFirst, IsNoWholeLine};

/// A line is read as an entry exactly where a description may have the entry and the line is written as the entry may
/// be: its printed text, with blanks where they may stand and each number in any spelling (docs/DESCRIPTION.md,
/// "Entries").
pub fn line_is_read_where_written()
    ensures found { (line : List ℕ) (e : Entry) → entry_in line ≡ Ok e → IsEntry e × IsWritten e line }
    ensures again { (line : List ℕ) (e : Entry) → IsEntry e → IsWritten e line → entry_in line ≡ Ok e }
    ensures printed { (e : Entry) → IsEntry e → IsWritten e (entry_text e) }
{}

/// A fault of kind Word isn't changed by what stands behind its word: two lines that are the same up to a blank or the
/// line's end behind the column of the fault have it alike. The words before it have no wrong one among them, and are
/// no whole line, but where a byte is wrong that no template has (docs/PROGRAM.md, "Faults of the text").
pub fn wrong_word_is_kept()
    ensures behind { IsKept }
    ensures before { IsFirst }
    ensures no_whole_line { IsNoWholeLine }
{}

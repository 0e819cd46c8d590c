//! Laws of reading and printing, each the contract of a function that does nothing.

ghost use Rattle.po_ir.specs.Laws.{ReadsWhatIsWritten, ReadsPrinted};

/// Lines are read as units exactly where they write these units, and the language allows them (docs/STACK.md,
/// "Units").
pub fn units_are_written()
    ensures { ReadsWhatIsWritten }
{}

/// The text of a unit is read as that unit, where it has at most 4,194,304 bytes (docs/STACK.md, "Printed units").
pub fn printed_units_are_read()
    ensures { ReadsPrinted }
{}

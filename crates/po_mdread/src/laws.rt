//! Laws over the definitions.

ghost use Rattle.std.specs.Prelude.{◌≡◌, ℕ, List};
ghost use Rattle.po_text.specs.declared.fault.Spot.{Spot};
ghost use Rattle.po_lines.specs.Lines.{Numbered};
ghost use Rattle.po_model.specs.declared.machine.Machine.{Machine};
ghost use Rattle.po_mdread.specs.Description.{BeginWith};
ghost use Rattle.po_mdread.specs.MachineText.{machine_text, IsPrintable, end_of_text};
ghost use Rattle.po_mdread.specs.Reading.{described, machine_in};

/// A printed machine is read as itself, to the end of its text, where each of its lines has at most 4,096 bytes
/// (docs/DESCRIPTION.md).
pub fn printed_again()
    ensures { (m : Machine) → IsPrintable m → machine_in (machine_text m) ≡ Ok (m, end_of_text m) }
{}

/// A machine and a place are read from lines exactly where these begin with a description of the machine and the place
/// is the one behind it (docs/DESCRIPTION.md).
pub fn what_is_described()
    ensures read { (ls : List Numbered) → (n : ℕ) → (m : Machine) → (at : Spot) → described ls n ≡ Ok (m, at)
        → BeginWith ls m at }
    ensures described { (ls : List Numbered) → (n : ℕ) → (m : Machine) → (at : Spot) → BeginWith ls m at
        → described ls n ≡ Ok (m, at) }
{}

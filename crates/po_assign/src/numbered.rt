//! Lists in which each register's value stands at the place of the register's number.
ghost use Rattle.std.specs.Prelude.{◌≡◌, ◌==◌, ℕ, OnOk, if◌then◌else◌};
ghost use Rattle.po_assign.specs.Numbered.{value_at};

use po_word::OutOfMemory;

/// Puts a value at the place of a number, and 0 at each place between the end of the list and that one
/// (docs/LANGUAGE.md, "Placement").
pub fn put_at(values: &mut Vec<u32>, number: u32, value: u32) -> Result<(), OutOfMemory>
    ensures { OnOk result ((n : ℕ) →
        value_at values.new.items n ≡ (if number == n then value else value_at values.old.items n)) }
{
    let place = number as usize;
    if place >= values.len() {
        values.resize(place + 1, 0)?;
    }
    values[place] = value;
    Ok(())
}

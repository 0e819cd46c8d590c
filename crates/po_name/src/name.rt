//! Names: of machines, registers, units, labels and symbols. A contract sees a name as its bytes.
ghost use Rattle.std.specs.Prelude.{◌≡◌, Some, None, IfOk, if◌then◌else◌};
ghost use Rattle.std.specs.List.{list_all};
ghost use Rattle.po_name.specs.Names.{is_name, is_name_byte, begins_name};

use po_word::OutOfMemory;
use sqlite_items::Items;
use std::alloc::Global;
use std::marker::Model;

/// A name: 1 to 64 letters, digits and `_`, not beginning with a digit (docs/LANGUAGE.md, "Names").
#[derive(Debug, Drop)]
pub struct Name {
    bytes: Items<u8>,
}

impl Model for Name {
    ghost use Rattle.std.specs.Prelude.{List, ℕ, IsTrue};
    ghost use Rattle.std.specs.Coded.{coded_list, coded_ℕ};
    ghost use Rattle.po_name.specs.Names.{is_name};

    ghost Value = { List ℕ };

    ghost coded = { coded_list coded_ℕ };

    ghost view = { λ n. n.bytes };

    ghost invariant = { λ n. IsTrue (is_name n.bytes) };
}

impl Name {
    /// The name of these bytes, or None exactly where they are no name (docs/LANGUAGE.md, "Names"). It fails only
    /// where memory is refused.
    pub fn new(alloc: Global, bytes: &[u8]) -> Result<Option<Name>, OutOfMemory>
        ensures { IfOk result (λ found. found ≡ (if is_name bytes.now then Some bytes.now else None)) }
    {
        if is_name(bytes) {
            let bytes = Items::from_slice(alloc, bytes)?;
            Ok(Some(Name { bytes }))
        } else {
            Ok(None)
        }
    }

    /// The same name once more. It fails only where memory is refused.
    pub fn copy(&self, alloc: Global) -> Result<Name, OutOfMemory>
        ensures { IfOk result (λ name. name ≡ self.now) }
    {
        let bytes = Items::from_slice(alloc, self.bytes.as_slice())?;
        Ok(Name { bytes })
    }

    /// Its bytes.
    pub fn bytes(&self) -> &[u8]
        ensures { result.now ≡ self.now }
    {
        self.bytes.as_slice()
    }
}

fn is_name_letter(b: u8) -> bool
    ensures { result ≡ is_name_byte b }
{
    matches!(b, b'a'..=b'z' | b'A'..=b'Z' | b'0'..=b'9' | b'_')
}

fn begins_with_letter(bytes: &[u8]) -> bool
    ensures { result ≡ begins_name bytes.now }
{
    match bytes {
        [] => false,
        [first, ..] => !first.is_ascii_digit(),
    }
}

fn has_name_letters(bytes: &[u8]) -> bool
    ensures { result ≡ list_all is_name_byte bytes.now }
{
    bytes.iter().all(|b| is_name_letter(*b))
}

fn is_name(bytes: &[u8]) -> bool
    ensures { result ≡ is_name bytes.now }
{
    bytes.len() <= 64 && begins_with_letter(bytes) && has_name_letters(bytes)
}

//! The words that lines inside a unit begin with.

ghost use Rattle.std.specs.Prelude.{◌≡◌};
ghost use Rattle.po_ir.specs.Keys as keys;

use crate::unit::Key;
use po_word::{Bin, Rel, Un};

/// What the first word of a line inside a unit says, if such a line may begin with it.
#[tactic(auto, unfolding(crate::specs::Keys::key_of_word))]
pub fn key(word: &[u8]) -> Option<Key>
    ensures { result ≡ keys.key_of_word word.now }
{
    match word {
        b"con" => Some(Key::Con),
        b"adl" => Some(Key::Adl),
        b"adg" => Some(Key::Adg),
        b"lod" => Some(Key::Lod),
        b"sto" => Some(Key::Sto),
        b"dup" => Some(Key::Dup),
        b"pop" => Some(Key::Pop),
        b"lab" => Some(Key::Lab),
        b"jmp" => Some(Key::Jmp),
        b"arg" => Some(Key::Arg),
        b"call" => Some(Key::Call),
        b"ret" => Some(Key::Ret),
        b"add" => Some(Key::Bin(Bin::Add)),
        b"sub" => Some(Key::Bin(Bin::Sub)),
        b"mul" => Some(Key::Bin(Bin::Mul)),
        b"and" => Some(Key::Bin(Bin::And)),
        b"ior" => Some(Key::Bin(Bin::Or)),
        b"xor" => Some(Key::Bin(Bin::Xor)),
        b"shl" => Some(Key::Bin(Bin::Shl)),
        b"shr" => Some(Key::Bin(Bin::Shr)),
        b"sar" => Some(Key::Bin(Bin::Sar)),
        b"neg" => Some(Key::Un(Un::Neg)),
        b"not" => Some(Key::Un(Un::Not)),
        b"beq" => Some(Key::Br(Rel::Eq)),
        b"bne" => Some(Key::Br(Rel::Ne)),
        b"blt" => Some(Key::Br(Rel::Lt)),
        b"ble" => Some(Key::Br(Rel::Le)),
        b"bgt" => Some(Key::Br(Rel::Gt)),
        b"bge" => Some(Key::Br(Rel::Ge)),
        b"bltu" => Some(Key::Br(Rel::Ltu)),
        b"bgeu" => Some(Key::Br(Rel::Geu)),
        _ => None,
    }
}

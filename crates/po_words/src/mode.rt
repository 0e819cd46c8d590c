//! The mode that the first word names.

ghost use Rattle.std.specs.Prelude.{◌≡◌, ◌↔◌, codes, map, string_bytes, IsTrue};
ghost use Rattle.po_words.specs.Finds.{Finds};
ghost use Rattle.po_words.specs.Modes.{IsNamed, IsFirst};

/// What the program does with its input, or in place of reading one.
// ORDER: modes
#[derive(Clone, Copy, Debug, PartialEq, Eq)]
pub enum Mode {
    Naive,
    Slow,
    Opt,
    Gen,
}

fn is_naive(word: &str) -> bool
    ensures { IsTrue result ↔ (word.now ≡ codes "naive") }
{
    word == "naive"
}

fn is_slow(word: &str) -> bool
    ensures { IsTrue result ↔ (word.now ≡ codes "slow") }
{
    word == "slow"
}

fn is_opt(word: &str) -> bool
    ensures { IsTrue result ↔ (word.now ≡ codes "opt") }
{
    word == "opt"
}

fn is_gen(word: &str) -> bool
    ensures { IsTrue result ↔ (word.now ≡ codes "gen") }
{
    word == "gen"
}

/// The mode that a word names.
// ORDER: modes
fn mode_named(word: &str) -> Option<Mode>
    ensures { Finds (IsNamed word.now) result }
{
    if is_naive(word) {
        Some(Mode::Naive)
    } else if is_slow(word) {
        Some(Mode::Slow)
    } else if is_opt(word) {
        Some(Mode::Opt)
    } else if is_gen(word) {
        Some(Mode::Gen)
    } else {
        None
    }
}

/// The mode that the first word names.
pub fn mode_of(words: &[String]) -> Option<Mode>
    ensures { Finds (IsFirst (map string_bytes words.now)) result }
{
    match words {
        [first, ..] => mode_named(first.as_str()),
        [] => None,
    }
}

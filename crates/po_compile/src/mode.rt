//! The modes that make assembly.

/// What becomes of the naive code of a unit before its values get registers (docs/PROGRAM.md, "Modes").
#[derive(Clone, Copy, Debug, PartialEq, Eq)]
pub enum Mode {
    /// Nothing: the naive code is placed.
    Naive,
    /// All passes go over it, and what they make is placed.
    Slow,
    /// As `Slow`, by rules that are learned on the way; they are written behind the assembly.
    Opt,
}

/// The modes in which no rule is learned (docs/PROGRAM.md, "Modes").
#[derive(Clone, Copy, Debug, PartialEq, Eq)]
pub enum Alone {
    /// Nothing becomes of the naive code.
    Naive,
    /// All passes go over it.
    Slow,
}

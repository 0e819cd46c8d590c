//! Why a rule isn't put into a table.

/// Why a rule isn't put into a table (docs/RULES.md, "Tables").
#[derive(Clone, Copy, Debug, Drop, PartialEq, Eq)]
pub enum AddRefusal {
    /// The machines agree, and the table has the rule, at this place.
    Known(usize),
    /// The rule is for another machine.
    OtherMachine,
    /// Memory was refused.
    OutOfMemory,
}

//! Tests of tables and of what stands on them, as tables: what adding rules answers, and what the blocks of a unit's
//! scan tell, with a table that is empty and with one that has the rules.
#![tactic(auto)]

#[cfg(test)]
mod adding;
#[cfg(test)]
mod blocks;
#[cfg(test)]
mod learning;

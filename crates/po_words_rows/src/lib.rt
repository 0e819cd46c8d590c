//! Tests of what the words of the program ask for, as a table.
#![tactic(auto)]

#[cfg(test)]
mod table;

//! Tests of the crates that read and print what `po` is given, as tables: stack code, and descriptions from the parts
//! of an entry up.
#![tactic(auto)]

#[cfg(test)]
mod entry;
#[cfg(test)]
mod ir;
#[cfg(test)]
mod mdread;
#[cfg(test)]
mod pattern;

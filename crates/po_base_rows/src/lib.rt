//! Tests of the crates that all others stand on, as tables: words, texts, names, lines, terms and the simplifier, a
//! module for each crate.
#![tactic(auto)]

#[cfg(test)]
mod lines;
#[cfg(test)]
mod name;
#[cfg(test)]
mod simplify;
#[cfg(test)]
mod term;
#[cfg(test)]
mod termtext;
#[cfg(test)]
mod text;
#[cfg(test)]
mod word;

//! Tests of the generaliser, as tables worked out by hand, a module for each crate: what the simplifier makes of terms
//! with holes, how shapes are joined and which entry fits, and the rules of pairs, each with the questions that are
//! asked. Instructions and machines stand in them as texts, which `texts` reads.
#![tactic(auto)]

#[cfg(test)]
mod combined;
#[cfg(test)]
mod rule;
#[cfg(test)]
mod simple;
#[cfg(test)]
mod texts;

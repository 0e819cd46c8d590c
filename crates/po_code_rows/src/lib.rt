//! Tests of the crates from a unit's code to its assembly, as tables: expansion, recognition, combination, placement
//! and output, a module for each. Instructions, machines and units stand in them as texts, which `texts` reads.
#![tactic(auto)]

#[cfg(test)]
mod assign;
#[cfg(test)]
mod emit;
#[cfg(test)]
mod expand;
#[cfg(test)]
mod recog;
#[cfg(test)]
mod slow;
#[cfg(test)]
mod subst;
#[cfg(test)]
mod texts;

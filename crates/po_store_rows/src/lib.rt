//! Tests of the store: what is learned, and what readers see of it.
#![tactic(auto)]

#[cfg(test)]
mod learned;
#[cfg(test)]
mod pairs;

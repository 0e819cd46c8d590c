//! Tests of a worker's unit: over a door that refuses some of its entries, as a table.
#![tactic(auto)]

#[cfg(test)]
mod door;
#[cfg(test)]
mod unit;

//! Tests of the pool: which units each worker gets, as a table, and learners that go on while the workers do.
#![tactic(auto)]

#[cfg(test)]
mod together;
#[cfg(test)]
mod units;

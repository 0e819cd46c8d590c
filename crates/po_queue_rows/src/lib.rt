//! Tests of the queue: short runs with two passes, as a table, and a queue that is filled to its capacity.
#![tactic(auto)]

#[cfg(test)]
mod full;
#[cfg(test)]
mod run;

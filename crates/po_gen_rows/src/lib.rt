//! Tests of sample units, as tables.
#![tactic(auto)]

#[cfg(test)]
mod samples;
#[cfg(test)]
mod summaries;

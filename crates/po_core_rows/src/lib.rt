//! Tests of `po_core`: lists of events, each beside whether it is allowed, on the machine `tiny`.
#![tactic(auto)]

#[cfg(test)]
mod events;
#[cfg(test)]
mod setting;

//! Tests that cross crates, as tables: whole runs of the top call, each line an input with what the program must
//! answer, hostile ones among them, what is live in small codes, how many pairs the passes over a unit try, and what
//! becomes of a branch, pair by pair.
#![tactic(auto)]

#[cfg(test)]
mod branch;
#[cfg(test)]
mod hostile;
#[cfg(test)]
mod liveness;
#[cfg(test)]
mod naive;
#[cfg(test)]
mod passes;
#[cfg(test)]
mod placing;
#[cfg(test)]
mod runs;
#[cfg(test)]
mod slow;

//! Tests of the top call in the mode `opt`, whose workers and learners are threads: one text gives the same bytes
//! however many there are, what is counted, how runs end, and that what is learned beside the compiling is used.
#![tactic(auto)]

#[cfg(test)]
mod beside;
#[cfg(test)]
mod counts;
#[cfg(test)]
mod ends;
#[cfg(test)]
mod runs;
#[cfg(test)]
mod same;

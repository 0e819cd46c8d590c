//! Tests of rules, as tables: the shapes of pairs, their words, and what stands at their holes, values put into
//! results, copies, and the texts of rules, a module for each. Instructions stand in them as texts, which `texts`
//! reads, and what has no reader is put together by `written`.
#![tactic(auto)]

#[cfg(test)]
mod bind;
#[cfg(test)]
mod copies;
#[cfg(test)]
mod print;
#[cfg(test)]
mod put;
#[cfg(test)]
mod shape;
#[cfg(test)]
mod texts;
#[cfg(test)]
mod words;
#[cfg(test)]
mod written;

//! Bytes that come in and go out, and the words and numbers in them. A source and a sink say which bytes they still
//! have or have kept, and count their faults, so that each answer other than success has its cause. Nothing here
//! knows what the bytes mean: the kinds of faults of a text stand here for the crates that read one.
//!
//! Its tests stand in `po_base_rows`.
#![tactic(auto)]

mod fault;
mod memory;
mod number;
mod sink;
mod source;
mod standard;
mod words;

pub use fault::{Kind, OutOfMemory, ReadRefusal, Span, Spot, TextRefusal, WriteFault};
pub use memory::{MemSink, MemSource};
pub use number::read_number;
pub use sink::{Put, Sink, write_all};
pub use source::{Got, Source, place_behind, read_all};
pub use standard::{StdSink, StdSource};
pub use words::{split_line, word_end};

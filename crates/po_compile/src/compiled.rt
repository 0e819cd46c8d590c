//! What compiling a text gives.

/// The output for a text, and what is told of the work on it.
#[derive(Drop)]
pub struct Compiled<T> {
    /// The output.
    pub out: Vec<u8>,
    /// What is told of the work.
    pub told: T,
}

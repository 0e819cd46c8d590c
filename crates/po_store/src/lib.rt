//! A store of rules that threads share: one publisher, under whatever lock its caller has, learns rules and publishes
//! them; readers take the published table and never wait (docs/LEARNING.md, "The store").
//!
//! `history` has the list of the rules that were published, which exists in proofs alone, and `name` names a store as
//! a type. `version` is what is published, a table with the beginning of the history that it has; `edition` is what
//! the publisher asks of it. `board` shows readers one version after another, `desk` makes the next one, and
//! `publisher` keeps the log and the count of what was learned. `reader` has the readers, and `store` opens a store.
//! Its tests stand in `po_store_rows`.
#![tactic(auto)]

mod board;
mod desk;
mod edition;
mod history;
mod name;
mod publisher;
mod reader;
mod store;
mod version;

pub use edition::{Edition, Whole};
pub use history::{Front, Head, Opened};
pub use name::StoreName;
pub use publisher::{Entry, Publisher};
pub use reader::{Note, Reader, Snapshot};
pub use store::open_store;
pub use version::Version;

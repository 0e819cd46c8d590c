//! The data of descriptions and of code, and the definitions over them that the crates above cite.
//!
//! `machine` has what a description says; `code` has a unit's code; `pair` has two instructions that may become one;
//! `var` has what may be live; `hole` has transfers with holes, and `rule` the shapes and rules that are made of
//! them; `steps` counts work; `copy` copies a code, and `same` compares machines.
//!
//! The definitions stand in specs/. Of descriptions: `Machines` (the machines that a description may tell of),
//! `Entries` (the entries that one may have), `Patterns` (an entry's pattern as plain moves), `Fit` (the first entry
//! that fits). Of code: `Blocks` (a code as plain blocks, and which block is next), `UnitCodes` (a unit's code as
//! plain data, and what every such code has), `Naive` (the naive code of a unit), `LiveAfter` (what is live after an
//! instruction), `Fitted` (the entry that each instruction of a code fits), `Placement` (the machine register of each
//! virtual register), `Assembly` (the assembly of a unit). Of pairs and passes: `Pairs` and `Combined` (what becomes
//! of a pair), `Forward` (whether two addresses meet, and what a term becomes behind an instruction), `Joined` (the
//! one list that two instructions come to), `Keeps` (that one instruction does what two did), `Scanned` (the scan of
//! a code). Of what code does: `Effect` (what an instruction does to a state), `Run` (what a code does, block by
//! block), `Placed` (what placed code does). Of rules: `Holed` (rules as plain data), `Shape` (the shape of a pair
//! and what stands at its holes), `Put` (values put into holes), `Agrees` (that a rule says what becomes of each of
//! its instances), `Generalised` (the rule of a pair), `Canonical` (that a rule is the rule of each of its
//! instances), `RuleText` (how a rule is printed), `Lookups` (what a list of rules says of a pair), `Learning` (how a
//! scan goes on by such a list, what a queue does, and how a rule is learned).
#![tactic(auto)]

mod code;
mod copy;
mod hole;
mod machine;
mod pair;
mod rule;
mod same;
mod steps;
mod var;

pub use code::{Block, Code, UnitCode};
pub use copy::copy_code;
pub use hole::{PCond, PReg, PTerm, PTransfer};
pub use machine::{Bounds, Entry, Machine, PatCond, PatReg, PatTerm, PatTransfer, Piece};
pub use pair::{Live, Outcome, Pair};
pub use rule::{Pattern, Rule, Shape, Values};
pub use same::same_machine;
pub use steps::Steps;
pub use var::Var;

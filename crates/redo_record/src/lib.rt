//! How a target ended, and its record: when it must be rebuilt.
//!
//! A record is a list of entries. An entry names a path and the event that matters there: it changes, or something
//! comes to exist. Or it says that the target is always rebuilt. First come the entries of the search for the
//! target's rule, then those that its script declared. The definitions beside the code say what a target waits for by
//! its record, and how its progress may follow the answers; the crates above prove this of their scripts, or build on
//! it.
//!
//! - `outcome`: how a target ended, and why one failed.
//! - `deps`: entries, each once.
//! - `record`: a whole record.
#![tactic(auto)]

mod deps;
mod outcome;
mod record;

pub use deps::{Dep, DepKind, Deps};
pub use outcome::{Outcome, Why};
pub use record::{Parts, Record};

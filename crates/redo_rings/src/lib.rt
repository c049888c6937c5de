//! The rings of a report: which cyclic targets wait for one another.
//!
//! [`rings`] goes from each cyclic target to one that it asks for, until it comes to one that it has seen. So it
//! finds a ring that each leads to.
//!
//! - `ring`: a ring; `finding`: all of a report;
//! - `graph`: which targets ask for which, by numbers; `choice`: which of them a walk goes on to; `walks`: the walks.
#![tactic(auto)]

mod choice;
mod finding;
mod graph;
mod groups;
mod ring;
mod walks;

pub use finding::rings;
pub use ring::Ring;

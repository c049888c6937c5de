//! Why scripts are begun, and what is out of date: laws over any sources and the book of the last run. Nothing here runs.
//!
//! A script that is begun has one reason: its target was requested, has no record, isn't as the last run left it, or has
//! a recorded entry that falls. The specs say which it is, by the answers that are known; the laws say that each begun
//! script has a reason, and that what it is when the script is begun it still is when the run has ended.
//!
//! Before a run, a book and a tree tell much of what the run will do. The specs give each target that has a record a
//! verdict: it is kept, its script is begun, or that hangs on what other scripts come to. By these they list what is out
//! of date. The laws say that a target that isn't listed is kept by each run that needs it, and that a stale one's script
//! is begun. A list that knows no request tells of a run if nothing is requested that the target rests on, or if the
//! book is honest; verdicts that know the request tell of its run, whatever the book says.
//!
//! - `laws`: all of this, as contracts of functions that do nothing.
#![tactic(auto)]

pub mod laws;

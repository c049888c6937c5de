//! Laws of runs that were broken off while they stored their files. Nothing here runs.
//!
//! The specs say what such a run leaves in a directory, what the next run goes on with, and what a directory holds
//! after each step of storing. [`laws`] has what follows: the sources are those that they were.
#![tactic(auto)]

pub mod laws;

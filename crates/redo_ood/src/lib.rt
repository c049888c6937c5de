//! What is out of date: the targets that the next run would or may begin, found without a build.
//!
//! [`out_of_date`] lists them with their reasons, for every run or for one that requests some paths.
//!
//! - `list`: the list; `told`: what it has of a path; `whys`: why, in words;
//! - `items`: what the tree alone tells of each entry; `verdicts`: what follows for each record; `words`: what is
//!   told of one;
//! - `asked`: which paths a run is asked about: all targets of the book, or what its request rests on;
//! - [`laws`]: what a list tells of runs.
#![tactic(auto)]

mod asked;
mod items;
pub mod laws;
mod list;
mod told;
mod verdicts;
mod whys;
mod words;

pub use list::out_of_date;

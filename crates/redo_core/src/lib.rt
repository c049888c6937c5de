//! The board of a build: which scripts may run, and what they came to.
//!
//! A board has the entries of a running build. Whatever the order in which its works are taken and handed in, it
//! shows a part of the one build that `redo_build` defines until it has stopped, and all of it once it is quiet.
//! Targets that still wait then are cyclic. The rules of that build are those of `redo_rules`: a source tree's
//! scripts, and what the book of the last run lets it keep. It starts no thread and runs nothing by itself: a layer
//! above takes, advances and hands in.
//!
//! - `laws`: what a board has taken, as the contract of a function that does nothing.
//! - `board`: the board; `table`, `moves` and `first` are its inside, and `same` compares by value; `permit`: what it
//!   takes to open one; `opening`: why none was opened.
//! - `check`: how far the check of a target has come; `moves` makes the looks.
//! - `work`, `facts`, `fact`: a job on its way to a worker and back, and the decided targets that it knows; `scripts`:
//!   its script, as it is read.
//! - `given`: what a build is given, which all of these share; `build`: the cells of its decided targets.
//! - `finish`: the report of a quiet board, which [`board::Board::finish`] completes by the new book.
#![tactic(auto)]

pub mod board;
mod build;
mod check;
pub mod fact;
mod facts;
mod finish;
mod first;
mod given;
pub mod laws;
mod moves;
pub mod opening;
pub mod permit;
mod same;
mod scripts;
mod table;
pub mod work;

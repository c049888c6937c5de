//! What a run goes on with where the one before it was broken off while it stored its files.
//!
//! A run writes its new book as a journal before it stores a file. So where it is broken off the journal stays, and a
//! file that it stored isn't taken for one of the user's: [`mend`] puts together the book of the journal and the old
//! one, each file as it is found, and takes the program's own files out of the tree.
//!
//! - `mending`: the mended tree, and what has to be cleared away; `left`: the files to clear away;
//! - `own`: the temporary files;
//! - `journal`: the book that it is; `recovered`: the records that are taken over, and their text; `named`: the files that are
//!   digested first;
//! - [`laws`]: a tree has one recovered book and is mended in one way.
#![tactic(auto)]

mod journal;
pub mod laws;
mod left;
mod mending;
mod named;
mod own;
mod recovered;

pub use mending::{Mended, mend};

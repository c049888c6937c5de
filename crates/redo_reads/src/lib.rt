//! What a report rests on: laws over two trees. Nothing here runs.
//!
//! A report depends on the names of its tree and on the contents of the files that it names: the .do files of the
//! needed targets, and the sources that their scripts declared. Another tree with the same names that agrees on those
//! has the same report, whatever its other files contain. With a book, it depends on the files that the book
//! names, too.
//!
//! - `laws`: this, as contracts of functions that do nothing.
#![tactic(auto)]

pub mod laws;

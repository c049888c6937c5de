//! What a run takes over from the one before it, and what it leaves to the next.
//!
//! A tree may have a book of the last run, the file `.redo-book` at its top, and generated files. None of these are
//! sources: [`Past`] has the tree as it was read, the sources in it, and the book. After the run it makes the new
//! book, which has a record for each target that was built, and the records that are carried from the old book.
//!
//! - `past`: the tree, the sources and the book, and what a run leaves; `named`: the files that the book has digests
//!   of, and those that the new one will have; `hints`: where their records stand;
//! - `place`: the book's place in a tree; `standing`: whether a path is as a book says; `rows`: the rows of a report,
//!   found by their paths; `states`: the state of each path when a run ends;
//! - `old_records`: the records of the last run, with their texts; `items`: what the records of the new book are made
//!   of, in order; `carrying`: those that are carried; `records`: the lines of each; `sizes`: how many bytes they have;
//!   `new_book`: the whole text;
//! - `row_digests`: the digests of what was built; `run_report`: a run's report with the new book, which is written
//!   piece by piece; `books`: the place of the book among the files;
//! - [`laws`]: a tree has one past, and a run leaves one book.
#![tactic(auto)]

mod books;
mod carrying;
mod hints;
mod items;
pub mod laws;
mod named;
mod new_book;
mod old_records;
mod past;
mod place;
mod records;
mod row_digests;
mod rows;
mod run_report;
mod sizes;
mod standing;
mod states;

pub use past::Past;
pub use place::{book_of, book_path, has_book};
pub use run_report::{ReportParts, RunReport};
pub use standing::{has_rule, has_state, is_free, is_generated, is_intact};

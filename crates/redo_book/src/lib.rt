//! The book of the last run: what became of each target, and what it depended on, with the state that each had.
//!
//! [`read_book`] makes a book from its text; for any other text it reports the first line at fault. A text can be
//! written line by line to a [`ByteOut`](redo_bundle::ByteOut), so that a large one need not be whole in memory. The
//! sizes of its lines are known in advance ([`record_size`] and the others), since the destination may ask for the
//! length first.
//!
//! - `book`: books in memory; `faults`: why a text was refused;
//! - `reading`, `lines`, `made`: a text, a single line, and what the lines so far have made;
//! - `writing`, `sizes`: the lines, and their sizes in bytes;
//! - [`laws`]: a text is that of one book or has one first line at fault.
#![tactic(auto)]

mod book;
mod faults;
pub mod laws;
mod lines;
mod made;
mod reading;
mod sizes;
mod writing;

pub use book::{Book, BookEntry, BookRecord};
pub use faults::BookFault;
pub use reading::read_book;
pub use sizes::{always_size, change_size, create_size, record_size, target_size};
pub use writing::{
    write_always, write_change, write_create, write_end, write_record, write_target,
};

//! A directory in which one that may not be listed counts as empty, so that a run goes on beside it.
//!
//! What stands there isn't seen: neither a source nor a rule. A record of the book whose target stands there would be
//! dropped, and its file would count as a source of yours once it is seen again. So [`LenientDir`] refuses a directory that
//! has a target of the book or of the journal, and the top.
//!
//! - `books`: which targets a book has in a directory; `lenient`: the directory.
#![tactic(auto)]

mod books;
mod lenient;

pub use lenient::LenientDir;

//! A tree of directories and files below one top directory, as a build reads it.
//!
//! A [`Tree`] has the kind of entry at each path and the bytes of each file.
//!
//! - `entries`: the tree, and adding to it; `content`: a file's bytes, which clones share, and their digest;
//! - `parting`: taking files out of a tree; `digests`: making digests of contents and keeping them; `file_digests`:
//!   digests made on demand;
//! - `faults`: why nothing was added;
//! - [`laws`]: equal trees are one; what is at each path after files are taken out.
#![tactic(auto)]

mod content;
mod digests;
mod entries;
mod faults;
mod file_digests;
pub mod laws;
mod parting;

pub use content::Content;
pub use digests::{Contents, keep_fours};
pub use entries::{Entry, Kind, Tree};
pub use faults::TreeFault;
pub use file_digests::FileDigests;

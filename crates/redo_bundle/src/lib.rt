//! Bundles, the text form of a tree: reading and writing them.
//!
//! [`read_bundle`] makes a tree from a stream of bytes, or reports the first fault in it; [`write_bundle`] writes a
//! tree in path order, so that it reads back as the same tree. Both use two small traits, [`ByteIn`] and [`ByteOut`],
//! whose contracts name the bytes and say whether a call has failed.
//!
//! - `ends`: where bytes come from and go to; `buffer`: bytes that were read and not used yet;
//! - `reading`, `writing`: bundles, entry by entry; `faults`: why a bundle was refused, or not written;
//! - [`laws`]: a text is a bundle of one tree or has one first fault, and a tree's bundle reads back as that tree.
#![tactic(auto)]

mod buffer;
mod ends;
mod faults;
pub mod laws;
mod reading;
mod writing;

pub use ends::{Broken, ByteIn, ByteOut, Plain};
pub use faults::{BundleFault, WriteFault};
pub use reading::{read_bundle, read_bundle_by_line};
pub use writing::{write_all, write_bundle, write_parts};

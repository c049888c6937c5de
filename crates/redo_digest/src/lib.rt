//! Digests of file contents, by which a build tells whether a file has changed since an earlier run.
//!
//! A [`Digest`] is the SHA-256 of a file's bytes; it is spelled by 64 hexadecimal digits and read back from these.
//!
//! - `digest`: digests;
//! - `four`: digests of four contents, made side by side in the `lanes` of vectors, and [`Fours`], which finds them;
//! - [`laws`]: each content has a digest; a digest is spelled by its 64 digits and by nothing else.
#![tactic(auto)]

mod digest;
mod four;
mod fours;
mod lanes;
pub mod laws;

pub use digest::{DIGITS, Digest};
pub use fours::{Fours, Next};

//! What becomes of the files that a clean is to remove.

/// What became of a generated file.
#[derive(Clone, Copy, Debug, PartialEq, Eq)]
pub enum Fate {
    /// It had its bytes, and was removed.
    Removed,
    /// It was kept: it has other bytes.
    Changed,
    /// What stands in its place was kept: a directory, a link or the like.
    NoFile,
    /// Nothing stood in its place any more.
    Gone,
}

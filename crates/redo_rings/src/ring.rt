//! A ring.

use redo_path::Path;

/// Cyclic targets that ask for one another in a ring.
#[derive(Debug, Drop)]
pub struct Ring {
    /// Each asks for the next one, and the last for the first.
    pub members: Vec<Path>,
    /// How many cyclic targets that are on no ring wait for a member, by what they ask for. A target that could be counted
    /// for several rings counts for one of them.
    pub waiting: usize,
}

//! A graph of nodes, each with the numbers of those that it needs.

/// What a node has to have in common with others to be put with them: numbers that stand for its rule, its directory
/// and its outcome.
#[derive(Clone, Copy, PartialEq, Eq, Hash)]
pub struct Kind {
    pub rule: usize,
    pub directory: usize,
    pub outcome: usize,
}

/// A node. Its number is its place in a list of nodes.
#[derive(Drop)]
pub struct Node {
    pub kind: Kind,
    /// Whether it is put with no other.
    pub alone: bool,
    /// The numbers of the nodes that it needs. One may be there twice, and needs may close cycles.
    pub needs: Vec<usize>,
}

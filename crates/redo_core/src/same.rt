//! Comparing by value.
ghost use Rattle.std.specs.Prelude.{◌≡◌, ◌↔◌, IsTrue};

use redo_path::Path;
use redo_tree::Tree;
use redo_tree::laws::equal_trees_are_one;

/// Whether two trees have the same entries.
pub(crate) fn is_same_tree(tree: &Tree, other: &Tree) -> bool
    ensures { IsTrue result ↔ (tree.now ≡ other.now) }
{
    equal_trees_are_one();
    tree == other
}

/// Whether two lists have the same paths in the same order.
pub(crate) fn are_same_paths(paths: &[Path], others: &[Path]) -> bool
    ensures { IsTrue result ↔ (paths.now ≡ others.now) }
{
    paths == others
}

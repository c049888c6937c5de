//! Theorems about the definitions of trees. The functions do nothing; each contract is a law.

ghost use Rattle.std.specs.Prelude.{◌≡◌, ◌↔◌, ℕ, List, None, Some, if◌then◌else◌, true};
ghost use Rattle.redo_names.specs.Paths.{is_among};
ghost use Rattle.redo_tree.specs.Tree.{Directory, IsTree, Tree, file_at, node_at, tree_eq, without};

/// Two trees are equal by `==` exactly when they are one.
pub fn equal_trees_are_one()
    ensures { (tree other : Tree) → (tree_eq tree other ≡ true) ↔ (tree ≡ other) }
{}

/// A tree without some of its files is a tree.
pub fn a_tree_without_files_is_a_tree()
    ensures { (tree : Tree) (out : List (List ℕ)) → IsTree tree → IsTree (without tree out) }
{}

/// Taking out the files at some paths leaves no file at these, and every other file where it was.
pub fn no_other_file_is_taken_out()
    ensures { (tree : Tree) (out : List (List ℕ)) (path : List ℕ) → IsTree tree →
        file_at (without tree out) path ≡ (if is_among out path then None else file_at tree path) }
{}

/// Taking files out neither removes nor adds a directory.
pub fn directories_stay()
    ensures { (tree : Tree) (out : List (List ℕ)) (path : List ℕ) → IsTree tree →
        (node_at (without tree out) path ≡ Some Directory) ↔ (node_at tree path ≡ Some Directory) }
{}

//! Theorems about the definitions of bundles. The functions do nothing; each contract is a law.

ghost use Rattle.std.specs.Prelude.{◌≡◌, ◌↔◌, ℕ, List, true};
ghost use Rattle.redo_tree.specs.Tree.{IsTree, Tree, tree_eq};
ghost use Rattle.redo_bundle.specs.Bundle.{HasSmallFiles, IsBundle, IsBundleOrRefused, IsRefused, bundle_of};
ghost use Rattle.redo_bundle.specs.declared.faults.BundleFault.{BundleFault};

/// A text is a bundle of at most one tree.
pub fn a_bundle_has_one_tree()
    ensures { (text : List ℕ) (tree other : Tree) → IsBundle text tree → IsBundle text other → tree ≡ other }
{}

/// A bundle isn't refused.
pub fn a_bundle_has_no_fault()
    ensures { (text : List ℕ) (tree : Tree) (fault : BundleFault) → IsBundle text tree → IsRefused text fault → ⊥ }
{}

/// A text is refused by at most one fault.
pub fn a_text_has_one_fault()
    ensures { (text : List ℕ) (fault other : BundleFault) → IsRefused text fault → IsRefused text other →
        fault ≡ other }
{}

/// A text that is no bundle is refused. So reading, unless it fails, returns a tree exactly for bundles.
pub fn each_text_is_a_bundle_or_refused()
    ensures { (text : List ℕ) → IsBundleOrRefused text }
{}

/// The bundle of a tree reads back as that tree.
pub fn a_written_tree_is_read_back()
    ensures { (tree : Tree) → IsTree tree → HasSmallFiles tree → IsBundle (bundle_of tree) tree }
{}

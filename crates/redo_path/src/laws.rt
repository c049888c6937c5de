//! Theorems about the definitions of paths. The functions do nothing; each contract is a law.

ghost use Rattle.std.specs.Prelude.{◌≡◌, ◌≢◌, ℕ, List, [], Ok, Some, false};
ghost use Rattle.std.specs.Cmp.Lexicographic.{slice_cmp};
ghost use Rattle.std.specs.List.{AllByRecursion};
ghost use Rattle.std.specs.Ordering.{nat_cmp};
ghost use Rattle.std.specs.declared.cmp.Ordering.TheVariants.{Less};
ghost use Rattle.redo_path.specs.Names.{IsPath, is_control, parent_of};
ghost use Rattle.redo_path.specs.Resolve.{resolved};

/// A path's text, resolved from the top directory, names that path. The root is left out: the empty text is no word.
pub fn a_path_names_itself()
    ensures { (path : List ℕ) → path ≢ [] → IsPath path → resolved [] path ≡ Ok path }
{}

/// What a word names is a path, whatever the word.
pub fn a_word_names_a_path()
    ensures { (base word path : List ℕ) → IsPath base → resolved base word ≡ Ok path → IsPath path }
{}

/// No path has a control byte, so a path fits on one line of text.
pub fn a_path_is_printable()
    ensures { (path : List ℕ) → IsPath path → AllByRecursion (λ byte. is_control byte ≡ false) path }
{}

/// A directory sorts before each path directly in it.
pub fn a_directory_stands_first()
    ensures { (path dir : List ℕ) → parent_of path ≡ Some dir → slice_cmp nat_cmp dir path ≡ Less }
{}

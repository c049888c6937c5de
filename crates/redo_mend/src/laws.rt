//! Laws of mended trees. The functions do nothing: each contract is a law.

ghost use Rattle.std.specs.Prelude.{◌≡◌, List};
ghost use Rattle.redo_tree.specs.Tree.{Tree};
ghost use Rattle.redo_book.specs.Book.{IsBook, Record};
ghost use Rattle.redo_mend.specs.Mended.{MendsTo};
ghost use Rattle.redo_mend.specs.Recovered.{IsRecovered};

use redo_book::laws::a_text_has_one_book;

/// There is a recovered book, whatever the two books and the tree are, and it is one.
pub fn a_tree_has_one_recovered_book()
    ensures is { (tree : Tree) (journal old : List Record) → IsBook journal → IsBook old →
        (book : List Record) × IsRecovered tree journal old book }
    ensures one { (tree : Tree) (journal old book other : List Record) → IsRecovered tree journal old book →
        IsRecovered tree journal old other → book ≡ other }
{}

/// A tree is mended in one way at most.
pub fn a_tree_is_mended_in_one_way()
    ensures { (tree mended other : Tree) → MendsTo tree mended → MendsTo tree other → mended ≡ other }
{
    a_text_has_one_book();
}

//! Laws of pasts and new books. The functions do nothing: each contract is a law.

ghost use Rattle.std.specs.Prelude.{◌≡◌, false, List, None, Some, true, ℕ};
ghost use Rattle.redo_tree.specs.Tree.{IsTree, file_at};
ghost use Rattle.redo_which.specs.Rule.{found_of, is_rule};
ghost use Rattle.redo_book.specs.Book.{Record, record_at};
ghost use Rattle.redo_book.specs.Intact.{is_intact};
ghost use Rattle.redo_report.specs.declared.report.Row.{Row};
ghost use Rattle.redo_past.specs.NewBook.{IsNewBook};
ghost use Rattle.redo_past.specs.Past.{IsPast, PastView};

use redo_book::laws::a_text_has_one_book;
use redo_tree::laws::no_other_file_is_taken_out;

/// A tree has at most one book, and so one tree of sources.
pub fn a_tree_has_one_past()
    ensures { (past other : PastView) → IsPast past → IsPast other → past.tree ≡ other.tree → past ≡ other }
{
    a_text_has_one_book();
}

/// A target with a rule that isn't as the last run left it had a file, and has none any more: a file of other bytes would
/// be a source.
pub fn what_is_altered_has_lost_its_file()
    ensures { (past : PastView) (r : Record) → IsTree past.tree → IsPast past → record_at past.book r.target ≡ Some r →
        is_rule (found_of past.sources r.target) ≡ true → is_intact (file_at past.tree) r ≡ false →
        (file_at past.tree r.target ≡ None) × ((digest : List ℕ) × (r.state ≡ Some digest)) }
{
    no_other_file_is_taken_out();
}

/// A run leaves at most one book.
pub fn a_run_leaves_one_book()
    ensures { (past : PastView) (rows : List Row) (book other : List Record) → IsNewBook past rows book →
        IsNewBook past rows other → book ≡ other }
{}

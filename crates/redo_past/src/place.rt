//! The book's place in a tree.

ghost use Rattle.std.specs.Prelude.{◌≡◌, IfErr, IfOk, MatchOption, None, is_some};
ghost use Rattle.redo_tree.specs.Tree.{file_at};
ghost use Rattle.redo_which.specs.Candidates.{book_path as path_of_book};
ghost use Rattle.redo_book.specs.Book.{IsText};
ghost use Rattle.redo_past.specs.Past.{HasNoPast, IsBookOf, RefusesBook};

use redo_book::{Book, BookFault, read_book};
use redo_path::Path;
use redo_tree::Tree;
use redo_which::BOOK;
use std::alloc::{AllocError, Global};

/// The path of the book.
pub fn book_path(alloc: Global) -> Result<Path, AllocError>
    ensures { IfOk result (λ path. path ≡ path_of_book) }
{
    Path::of_text(alloc, BOOK)
}

/// Whether a tree has a book.
pub fn has_book(tree: &Tree) -> bool
    ensures { result ≡ is_some (file_at tree.now path_of_book) }
{
    tree.file_by_text(BOOK).is_some()
}

/// The book of a tree, if it has one.
pub(crate) fn book_in(alloc: Global, tree: &Tree) -> Result<Option<Book>, BookFault>
    ensures book { IfOk result (λ book. MatchOption (file_at tree.now path_of_book) (book ≡ None) (λ text.
        MatchOption book ⊥ (IsText text))) }
    ensures refused { IfErr result (λ fault. RefusesBook fault tree.now) }
    ensures none { IfErr result (λ fault. HasNoPast fault tree.now) }
{
    match tree.file_by_text(BOOK) {
        Some(text) => Ok(Some(read_book(alloc, text)?)),
        None => Ok(None),
    }
}

/// The book of a tree, empty if it has none.
pub fn book_of(alloc: Global, tree: &Tree) -> Result<Book, BookFault>
    ensures book { IfOk result (IsBookOf (file_at tree.now path_of_book)) }
    ensures refused { IfErr result (λ fault. RefusesBook fault tree.now) }
{
    match book_in(alloc, tree)? {
        Some(book) => Ok(book),
        None => Ok(Book::new(alloc)),
    }
}

//! The book that the journal of a run that was broken off has.

ghost use Rattle.std.specs.Prelude.{◌≢◌, IfOk, MatchOption, Some};
ghost use Rattle.redo_tree.specs.Tree.{Directory, node_at};
ghost use Rattle.redo_which.specs.Candidates.{book_path};
ghost use Rattle.redo_book.specs.Book.{IsText};
ghost use Rattle.redo_mend.specs.Mended.{IsPassedOver};

use redo_book::{Book, BookFault, read_book};
use redo_tree::{Content, Kind, Tree};
use redo_which::BOOK;
use std::alloc::{AllocError, Global};

/// The book that a journal has the text of; `None` if it is passed over.
pub(crate) fn journal_in(
    alloc: Global,
    tree: &Tree,
    text: &Content,
) -> Result<Option<Book>, AllocError>
    ensures { IfOk result (λ book. MatchOption book (IsPassedOver tree.now text.now)
        (λ book. IsText text.now book × (node_at tree.now book_path ≢ Some Directory))) }
{
    if tree.kind_by_text(BOOK) == Kind::Dir {
        return Ok(None);
    }
    match read_book(alloc, text.bytes()) {
        Ok(book) => Ok(Some(book)),
        Err(BookFault::Line(_)) => Ok(None),
        Err(BookFault::Memory) => Err(AllocError),
    }
}

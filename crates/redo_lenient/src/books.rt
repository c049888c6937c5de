//! Which targets a book has in a directory.

ghost use Rattle.std.specs.Prelude.{◌≡◌, is_some, true};
ghost use Rattle.std.specs.List.{list_any};
ghost use Rattle.redo_path.specs.Names.{below_of};
ghost use Rattle.redo_lenient.specs.Lenient.{HasNoneBelow};

use redo_book::{BookFault, BookRecord, read_book};
use redo_path::Path;
use std::alloc::Global;

/// Whether one of these records has its target in a directory or below it.
fn has_below(records: &[BookRecord], dir: &Path) -> bool
    ensures { result ≡ list_any (λ made. is_some (below_of made.target dir.now)) records.now }
{
    records.iter().any(|made| made.target.below(dir).is_some())
}

/// Whether this text is known to be that of no book with a target in a directory or below it.
pub(crate) fn has_none_below(alloc: Global, text: &[u8], dir: &Path) -> bool
    ensures { result ≡ true → HasNoneBelow dir.now text.now }
{
    match read_book(alloc, text) {
        Ok(book) => !has_below(book.records(), dir),
        Err(BookFault::Line(_)) => true,
        Err(BookFault::Memory) => false,
    }
}

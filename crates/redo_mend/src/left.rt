//! What a run has to clear away before it stores anything.

ghost use Rattle.std.specs.Prelude.{◌≡◌, IfOk};
ghost use Rattle.redo_mend.specs.Mended.{book_to_put as text_to_put};

use redo_past::book_path;
use redo_tree::{Content, Tree};
use std::alloc::{AllocError, Global};

/// The text of the mended tree's book, if the tree that was loaded has another one or none.
pub(crate) fn book_to_put(
    alloc: Global,
    tree: &Tree,
    mended: &Tree,
) -> Result<Option<Content>, AllocError>
    ensures { IfOk result (λ book. book ≡ text_to_put tree.now mended.now) }
{
    let path = book_path(alloc)?;
    let Some(text) = mended.content(&path) else {
        return Ok(None);
    };
    match tree.content(&path) {
        Some(old) if *old == *text => Ok(None),
        _ => Ok(Some(text.clone()?)),
    }
}

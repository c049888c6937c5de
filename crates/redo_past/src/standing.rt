//! Whether a path is as a book says.

ghost use Rattle.std.specs.Prelude.{◌≡◌, IfOk, bytes_eq, option_copied};
ghost use Rattle.std.specs.Option.{option_eq};
ghost use Rattle.redo_digest.specs.Digest.{state_of as state_in};
ghost use Rattle.redo_tree.specs.Tree.{file_at};
ghost use Rattle.redo_which.specs.Rule.{found_of, is_rule};
ghost use Rattle.redo_book.specs.Book.{record_of};
ghost use Rattle.redo_book.specs.Intact.{is_intact as stands_as_left};
ghost use Rattle.redo_past.specs.Past.{is_free as is_free_in, is_generated as was_generated};

use redo_book::BookRecord;
use redo_digest::Digest;
use redo_path::Path;
use redo_tree::{Content, Tree};
use redo_which::{Found, lookup};
use std::alloc::{AllocError, Global};

/// Whether a path with this content, or with none, has this state.
pub fn has_state(content: Option<&Content>, state: &Option<Digest>) -> bool
    ensures { result ≡ option_eq bytes_eq (state_in (option_copied content.entry)) state.now }
{
    match (content, state) {
        (Some(content), Some(digest)) => content.digest() == *digest,
        (None, None) => true,
        (Some(_), None) | (None, Some(_)) => false,
    }
}

/// Whether a record's target is as the record says: it has the file with that digest, or it has none.
pub fn is_intact(tree: &Tree, made: &BookRecord) -> bool
    ensures { result ≡ stands_as_left (file_at tree.now) (record_of made.now) }
{
    has_state(tree.content(&made.target), &made.state)
}

/// Whether the file at a record's target has the digest that the record has: then it is no source.
pub fn is_generated(tree: &Tree, made: &BookRecord) -> bool
    ensures { result ≡ was_generated tree.now (record_of made.now) }
{
    match (tree.content(&made.target), &made.state) {
        (Some(file), Some(digest)) => file.digest() == *digest,
        (None, _) | (_, None) => false,
    }
}

/// Whether a path has a rule.
pub fn has_rule(alloc: Global, sources: &Tree, path: &Path) -> Result<bool, AllocError>
    ensures { IfOk result (λ rule. rule ≡ is_rule (found_of sources.now path.now)) }
{
    match lookup::find(alloc, sources, path)? {
        Found::Rule(_) => Ok(true),
        Found::Source | Found::Directory | Found::NoDirectory | Found::NoRule { .. } => Ok(false),
    }
}

/// Whether nothing is at a path, and no rule makes anything there.
pub fn is_free(alloc: Global, sources: &Tree, path: &Path) -> Result<bool, AllocError>
    ensures { IfOk result (λ free. free ≡ is_free_in sources.now path.now) }
{
    match lookup::find(alloc, sources, path)? {
        Found::Source | Found::Directory | Found::Rule(_) => Ok(false),
        Found::NoDirectory | Found::NoRule { .. } => Ok(true),
    }
}

//! Targets that stand as the last run left them, and the sources that they depend on.

ghost use Rattle.std.specs.Prelude.{◌≡◌, ◌&&◌, IfOk, is_some, map};
ghost use Rattle.redo_book.specs.Book.{record_of};
ghost use Rattle.redo_names.specs.Paths.{is_among};
ghost use Rattle.redo_tree.specs.Tree.{bytes_of, file_at, node_of};
ghost use Rattle.redo_query.specs.Names.{named_sources, standing as standing_in, standing_targets};

use crate::named::named_by;
use redo_book::BookRecord;
use redo_names::PathSet;
use redo_past::{Past, is_intact};
use redo_path::Path;
use redo_tree::Entry;
use std::alloc::{AllocError, Global};

/// The records whose targets stand as the last run left them.
fn standing<'a>(alloc: Global, past: &'a Past) -> Result<Vec<&'a BookRecord>, AllocError>
    ensures { IfOk result (λ records. map (λ made. record_of made.now) records.items ≡ standing_in past.now) }
{
    let mut standing = Vec::new(alloc);
    for made in past.book().records() {
        if is_intact(past.tree(), made) {
            standing.push(made)?;
        }
    }
    Ok(standing)
}

/// The targets that stand as the last run left them, in path order.
pub(crate) fn targets<'a>(alloc: Global, past: &'a Past) -> Result<Vec<&'a Path>, AllocError>
    ensures { IfOk result (λ paths. map (λ path. path.now) paths.items ≡ standing_targets past.now) }
{
    let mut paths = Vec::new(alloc);
    for made in past.book().records() {
        if is_intact(past.tree(), made) {
            paths.push(&made.target)?;
        }
    }
    Ok(paths)
}

/// Whether an entry is a file at one of these paths.
fn is_named_file(named: &PathSet, path: &Path, entry: &Entry) -> bool
    ensures { result ≡ (is_some (bytes_of (node_of entry.now)) && is_among named.now path.now) }
{
    matches!(entry, Entry::File(_)) && named.contains(path)
}

/// The sources that these targets depend on, in path order.
pub(crate) fn sources<'a>(alloc: Global, past: &'a Past) -> Result<Vec<&'a Path>, AllocError>
    ensures { IfOk result (λ paths. map (λ path. path.now) paths.items ≡ named_sources past.now) }
{
    let standing = standing(alloc, past)?;
    let named = named_by(alloc, &standing)?;
    let mut paths = Vec::new(alloc);
    let entries = past.sources().in_order(alloc)?.into_iter();
    for (path, entry) in entries {
        if is_named_file(&named, path, entry) {
            paths.push(path)?;
        }
    }
    Ok(paths)
}

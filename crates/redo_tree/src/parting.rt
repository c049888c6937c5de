//! Taking files out of a tree.

ghost use Rattle.std.specs.Prelude.{◌≡◌, ◌++◌, ◌∷◌, [], IfOk, None, OnOk, bytes_eq, false};
ghost use Rattle.std.specs.Map.{lookup};
ghost use Rattle.redo_tree.specs.Tree.{is_file_among, node_of, without};
ghost use Rattle.redo_tree.specs.inside.Parting.{nodes_of};

use crate::Entry;
use redo_names::{PathMap, PathSet};
use redo_path::Path;
use std::alloc::{AllocError, Global};

/// A clone of an entry.
fn share(entry: &Entry) -> Result<Entry, AllocError>
    ensures { IfOk result (λ shared. shared ≡ entry.now) }
{
    match entry {
        Entry::Directory => Ok(Entry::Directory),
        Entry::File(content) => Ok(Entry::File(content.clone()?)),
    }
}

/// Keeps an entry whose path is new.
fn keep(kept: &mut PathMap<Entry>, path: &Path, entry: &Entry) -> Result<(), AllocError>
    requires { lookup (bytes_eq path.now) kept.old ≡ None }
    ensures { OnOk result (nodes_of kept.new ≡ nodes_of kept.old ++ (path.now, node_of entry.now) ∷ []) }
{
    kept.insert(path.clone()?, share(entry)?)?;
    Ok(())
}

/// Keeps the next entry, unless it is a file at one of these paths.
fn pass(
    kept: &mut PathMap<Entry>,
    names: &PathSet,
    path: &Path,
    entry: &Entry,
) -> Result<(), AllocError>
    requires { is_file_among names.now (path.now, node_of entry.now) ≡ false →
        lookup (bytes_eq path.now) kept.old ≡ None }
    ensures { OnOk result (nodes_of kept.new ≡
        nodes_of kept.old ++ without ((path.now, node_of entry.now) ∷ []) names.now) }
{
    match entry {
        Entry::File(_) if names.contains(path) => Ok(()),
        _ => keep(kept, path, entry),
    }
}

/// The entries of a tree that stay when the files at these paths are taken out, in their old order.
pub(crate) fn kept_of(
    alloc: Global,
    entries: &PathMap<Entry>,
    names: &PathSet,
) -> Result<PathMap<Entry>, AllocError>
    ensures { IfOk result (λ kept. nodes_of kept ≡ without (nodes_of entries.now) names.now) }
{
    entries.each_once();
    let mut kept = PathMap::with_capacity(alloc, entries.len())?;
    'entries: for number in 0..entries.len() {
        let (path, entry) = entries.at(number);
        pass(&mut kept, names, path, entry)?;
    }
    Ok(kept)
}

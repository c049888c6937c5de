//! The temporary files of a run that was broken off.

ghost use Rattle.std.specs.Prelude.{◌≡◌, ◌&&◌, IfOk, filter, is_some, map, nat_eq};
ghost use Rattle.std.specs.List.{starts_with};
ghost use Rattle.std.specs.Map.{keys_of};
ghost use Rattle.redo_path.specs.Names.{name_of};
ghost use Rattle.redo_tree.specs.Tree.{file_at};
ghost use Rattle.redo_dir.specs.Own.{is_temporary, temporary_front as front_of};

use redo_dir::Tag;
use redo_path::Path;
use redo_tree::{Content, Tree};
use std::alloc::{AllocError, Global};

/// How the names of the temporary files begin of the run that wrote this journal.
fn temporary_front(alloc: Global, journal: &Content) -> Result<Vec<u8>, AllocError>
    ensures { IfOk result (λ front. front.items ≡ front_of journal.now) }
{
    let tag = Tag::of(alloc, journal)?;
    let mut front = Vec::new(alloc);
    front.extend_from_slice(tag.front().as_bytes())?;
    Ok(front)
}

/// The paths of a tree, in their order.
fn paths_of(alloc: Global, tree: &Tree) -> Result<Vec<&Path>, AllocError>
    ensures { IfOk result (λ paths. map (λ path. path.now) paths.items ≡ keys_of tree.now) }
{
    tree.in_order(alloc)?.into_keys().collect(alloc)
}

/// Whether a path is that of a file whose name begins so.
fn is_file_with(tree: &Tree, path: &Path, front: &[u8]) -> bool
    ensures { result ≡ (is_some (file_at tree.now path.now) && starts_with nat_eq (name_of path.now) front.now) }
{
    tree.file(path).is_some() && path.name().starts_with(front)
}

/// The paths of the temporary files that a tree has of the run that wrote this journal, in path order.
pub(crate) fn temporaries(
    alloc: Global,
    tree: &Tree,
    journal: &Content,
) -> Result<Vec<Path>, AllocError>
    ensures { IfOk result (λ paths. paths.items ≡
        filter (λ p. is_some (file_at tree.now p) && is_temporary journal.now p) (keys_of tree.now)) }
{
    let front = temporary_front(alloc, journal)?;
    let all = paths_of(alloc, tree)?;
    let mut paths = Vec::new(alloc);
    for path in &all {
        if is_file_with(tree, path, &front) {
            paths.push(Path::clone(path)?)?;
        }
    }
    Ok(paths)
}

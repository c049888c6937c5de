//! A tree as a bundle.

ghost use Rattle.std.specs.Prelude.{◌≡◌, ◌↔◌, ◌<◌, ◌^◌, false, true, IfErr, IfOk, IsErrOf, MatchOption, OnOk, length};
ghost use Rattle.redo_tree.specs.Tree.{file_at};
ghost use Rattle.redo_bundle.specs.Bundle.{HasSmallFiles};
ghost use Rattle.redo_pack.specs.inside.Large.{is_large as is_large_file};
ghost use Rattle.redo_pack.specs.Packs.{IsTooLarge, IsUnpacked, IsUntouched, Packs};

use crate::PackFault;
use redo_bundle::{ByteOut, write_bundle};
use redo_path::Path;
use redo_tree::Tree;
use std::alloc::{AllocError, Global};

/// The most bytes of a file in a bundle.
const LARGEST_FILE: usize = 1_073_741_824;

/// Whether the file at a path is too large for a bundle.
fn is_large(tree: &Tree, path: &Path) -> bool
    ensures { result ≡ is_large_file (file_at tree.now path.now) }
{
    match tree.file(path) {
        Some(bytes) => bytes.len() > LARGEST_FILE,
        None => false,
    }
}

/// The path of a file that is too large for a bundle, the first in path order, if there is one.
fn too_large(alloc: Global, tree: &Tree) -> Result<Option<Path>, AllocError>
    ensures { IfOk result (λ large. MatchOption large (HasSmallFiles tree.now) (IsTooLarge tree.now)) }
{
    let entries = tree.in_order(alloc)?.into_iter();
    for (path, _entry) in entries {
        if is_large(tree, path) {
            return Ok(Some(path.clone()?));
        }
    }
    Ok(None)
}

/// Writes a tree as a bundle, unless a file is too large for one: more than 1,073,741,824 bytes.
///
/// The bundle is written in pieces: hand in a writer with a buffer, and flush it afterwards.
pub fn pack<W: ByteOut>(alloc: Global, writer: &mut W, tree: &Tree) -> Result<(), PackFault>
    requires writer { W.has_failed writer.old ≡ false }
    ensures packed { OnOk result (Packs tree.now (W.held writer.old) (W.held writer.new)) }
    ensures unpacked { IfErr result (IsUnpacked tree.now) }
    ensures untouched { IsUntouched result writer.old writer.new }
    ensures device { IsErrOf result PackFault.Device ↔ (W.has_failed writer.new ≡ true) }
{
    if let Some(path) = too_large(alloc, tree).map_err(|_| PackFault::Memory)? {
        return Err(PackFault::TooLarge(path));
    }
    write_bundle(alloc, writer, tree)?;
    Ok(())
}

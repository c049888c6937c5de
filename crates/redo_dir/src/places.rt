//! Which names of a directory a tree takes in.

ghost use Rattle.std.specs.Prelude.{◌≡◌, IfOk};
ghost use Rattle.std.specs.Option.{SomeIff};
ghost use Rattle.redo_path.specs.Names.{child_of};
ghost use Rattle.redo_dir.specs.Loaded as names;

use redo_path::{Path, PathFault, resolve};
use std::alloc::{AllocError, Global};

/// Whether a word is one name, and leads nowhere else.
fn is_one_name(word: &[u8]) -> bool
    ensures { result ≡ names.is_one_name word.now }
{
    word != b".".as_slice() && word != b"..".as_slice() && !word.contains(&b'/')
}

/// The path of a name that was found in a directory. None stands for a name that no tree takes in:
/// it has a control byte or leads elsewhere, or it or the path is too long.
#[tactic(auto, using(crate::proofs::EntryNameLemmas::no_name_stands, crate::proofs::EntryNameLemmas::named_stands, crate::proofs::EntryNameLemmas::named_at, crate::proofs::EntryNameLemmas::refused_stands))]
pub(crate) fn place_of(alloc: Global, dir: &Path, name: &[u8]) -> Result<Option<Path>, AllocError>
    ensures { IfOk result (λ place. SomeIff place (names.MayStand dir.now name.now) (child_of dir.now name.now)) }
{
    if !is_one_name(name) {
        return Ok(None);
    }
    match resolve(alloc, dir, name) {
        Ok(path) => Ok(Some(path)),
        Err(PathFault::Memory) => Err(AllocError),
        Err(_) => Ok(None),
    }
}

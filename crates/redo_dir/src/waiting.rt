//! What is asked between two changes: whether a place is free, and whether names are on the disk.

ghost use Rattle.std.specs.Prelude.{◌≡◌, ◌⊎◌, ◌∷◌, [], Err, IfErr, List, Option, OnOk, Some, is_ok, map, ℕ};
ghost use Rattle.std.specs.IoError.{error_kind};
ghost use Rattle.std.specs.Path.{path_buf_bytes};
ghost use Rattle.std.specs.declared.io.ErrorKind.{ErrorKind};
ghost use Rattle.std.specs.declared.io.ErrorKind.TheVariants.{AlreadyExists};
ghost use Rattle.redo_dir.specs.Called.{AreOnDisk, Finds, Follows, Found, IsFree, Syncs, Wait, answer_of, call_of, found_of, is_waited_for};

use crate::calls::Calls;
use std::fs::Metadata;
use std::io;
use std::io::ErrorKind;
use std::path::PathBuf;

/// Refuses a place that was found to have a file or a directory.
fn free_found(found: io::Result<Metadata>) -> io::Result<()>
    ensures free { OnOk result (IsFree (found_of error_kind found)) }
    ensures refused { IfErr result (λ error. (error_kind error ≡ AlreadyExists) ⊎ (found_of error_kind found ≡ Err (error_kind error))) }
{
    match found {
        Ok(about) => {
            if about.is_file() || about.is_dir() {
                return Err(io::Error::from(ErrorKind::AlreadyExists));
            }
            Ok(())
        }
        Err(error) => match error.kind() {
            ErrorKind::NotFound => Ok(()),
            _ => Err(error),
        },
    }
}

/// Refuses a place where a file or a directory stands.
pub(crate) fn check_free<C: Calls>(calls: &mut C, place: &PathBuf) -> io::Result<()>
    ensures found { (found : Found) × Follows C.after calls.old (Finds (path_buf_bytes place.now) found ∷ []) calls.new ×
        OnOk result (IsFree found) }
    ensures refused { IfErr result (λ error.
        (error_kind error ≡ AlreadyExists) ⊎ C.fails calls.new (path_buf_bytes place.now) (error_kind error)) }
{
    let found = calls.find(place);
    free_found(found)
}

/// A file system that can't be asked to wait for names is taken at its word.
fn waited(answer: io::Result<()>) -> io::Result<()>
    ensures waited { is_ok result ≡ is_waited_for (answer_of error_kind answer) }
    ensures refused { IfErr result (λ error. answer_of error_kind answer ≡ Some (error_kind error)) }
{
    match answer {
        Ok(()) => Ok(()),
        Err(error) => match error.kind() {
            ErrorKind::InvalidInput | ErrorKind::Unsupported => Ok(()),
            _ => Err(error),
        },
    }
}

/// Waits until the names in a directory are on the disk.
pub(crate) fn sync_names<C: Calls>(calls: &mut C, place: &PathBuf) -> io::Result<()>
    ensures waited { (answer : Option ErrorKind) × Follows C.after calls.old (Syncs (path_buf_bytes place.now) answer ∷ []) calls.new ×
        (is_ok result ≡ is_waited_for answer) }
    ensures refused { IfErr result (λ error. C.fails calls.new (path_buf_bytes place.now) (error_kind error)) }
{
    let answer = calls.sync_names(place);
    waited(answer)
}

/// Waits until the names in these directories are on the disk.
pub(crate) fn sync_each<C: Calls>(calls: &mut C, places: &[PathBuf]) -> io::Result<()>
    ensures waited { (waits : List Wait) × Follows C.after calls.old (map call_of waits) calls.new ×
        OnOk result (AreOnDisk (map path_buf_bytes places.now) waits) }
    ensures refused { IfErr result (λ error. (place : List ℕ) × C.fails calls.new place (error_kind error)) }
{
    for place in places {
        sync_names(calls, place)?;
    }
    Ok(())
}

//! New files of the system: made where nothing is, filled and closed.

ghost use Rattle.std.specs.Prelude.{◌⊎◌, [], IfErr, IfOk, List, None, OnOk, Option, Some, false, option_map, ℕ};
ghost use Rattle.std.specs.Fs.{permissions_mode};
ghost use Rattle.std.specs.IoError.{error_kind};
ghost use Rattle.std.specs.Path.{path_buf_bytes};
ghost use Rattle.redo_dir.specs.Called.{Found, IsReady};
ghost use Rattle.redo_dir.specs.Refused.{Failed};

use crate::calls::{Calls, NewFile, ReadCalls};
use std::fs::Permissions;
use std::io;
use std::io::ErrorKind;
use std::path::PathBuf;

/// What a new file is to have.
#[derive(Drop)]
pub(crate) struct NewContent<'a> {
    pub bytes: &'a [u8],
    /// The permissions of the file that it replaces.
    pub permissions: Option<Permissions>,
    /// Whether it is waited for until it is on the disk.
    pub synced: bool,
}

/// Who may read, write and run the file at a place, if one stands there.
pub(crate) fn permissions_at<C: ReadCalls>(
    calls: &C,
    place: &PathBuf,
) -> io::Result<Option<Permissions>>
    ensures ready { IfOk result (λ permissions.
        IsReady (C.stands calls.now) (path_buf_bytes place.now) (option_map permissions_mode permissions)) }
    ensures refused { IfErr result (λ error. C.fails calls.now (path_buf_bytes place.now) (error_kind error)) }
{
    match calls.look(place) {
        Ok(about) if about.is_file() => Ok(Some(about.permissions())),
        Ok(_) => Ok(None),
        Err(error) if error.kind() == ErrorKind::NotFound => Ok(None),
        Err(error) => Err(error),
    }
}

/// Gives a new file these permissions. Where it has them, the system isn't asked: some file systems know no others.
fn permit<F: NewFile>(file: &F, permissions: Permissions) -> io::Result<()>
    ensures has { OnOk result (F.has file.now (Some (permissions_mode permissions))) }
    ensures refused { IfErr result (λ error. F.fails file.now (error_kind error)) }
{
    if file.permissions()? == permissions {
        return Ok(());
    }
    file.permit(permissions)
}

/// Fills a new file. It has its permissions before it has any bytes, so that nobody reads them who may not.
fn fill<F: NewFile>(file: &mut F, new: NewContent<'_>) -> io::Result<()>
    ensures made { (place : List ℕ) → F.made file.old place → F.made file.new place }
    ensures holds { OnOk result ((place : List ℕ) →
        F.holds file.old place [] false → F.holds file.new place new.entry.bytes.now new.entry.synced) }
    ensures has { OnOk result (F.has file.old None → F.has file.new (option_map permissions_mode new.entry.permissions)) }
    ensures refused { IfErr result (λ error. F.fails file.new (error_kind error)) }
{
    if let Some(permissions) = new.permissions {
        permit(file, permissions)?;
    }
    file.write(new.bytes)?;
    if new.synced {
        file.sync()?;
    }
    Ok(())
}

/// Writes a new file and closes it, or leaves no file of its own.
pub(crate) fn write_new<C: Calls>(
    calls: &C,
    place: &PathBuf,
    new: NewContent<'_>,
) -> io::Result<C::Closed>
    ensures made { IfOk result (λ file. C.Closed.made file (path_buf_bytes place.now)) }
    ensures holds { IfOk result (λ file. C.Closed.holds file (path_buf_bytes place.now) new.entry.bytes.now new.entry.synced) }
    ensures has { IfOk result (λ file. C.Closed.has file (option_map permissions_mode new.entry.permissions)) }
    ensures stood { IfOk result (λ file. (place : List ℕ) (found : Found) →
        C.stands calls.now place found → C.Closed.stood file place found) }
    ensures refused { IfErr result (λ error. C.fails calls.now (path_buf_bytes place.now) (error_kind error) ⊎
        Failed C.Closed.made C.Closed.fails C.Closed.gone (path_buf_bytes place.now) (error_kind error)) }
{
    let mut open = calls.create(place)?;
    let outcome = fill(&mut open, new);
    let file = calls.close(open);
    if let Err(error) = outcome {
        let _removed = calls.discard(&file, place);
        return Err(error);
    }
    Ok(file)
}

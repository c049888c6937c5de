//! What a place of the system leads to, and the bytes of its file.

ghost use Rattle.std.specs.Prelude.{◌≡◌, ◌<◌, ◌≤◌, Err, IfErr, IfOk, IfSome, length, take};
ghost use Rattle.std.specs.Io.KnownBytes.{Consumes};
ghost use Rattle.std.specs.IoError.{error_kind};
ghost use Rattle.std.specs.Path.{path_buf_bytes};
ghost use Rattle.redo_dir.specs.Called.{IsOpenedAs, IsStandingAs, IsToldAs};
ghost use Rattle.redo_dir.specs.Refused.{IsRefusedAt};

use crate::calls::ReadCalls;
use crate::work_dir::Seen;
use std::alloc::Global;
use std::fs::Metadata;
use std::io;
use std::io::{ErrorKind, Read};
use std::path::PathBuf;

/// Up to so many bytes are read by one call, into room that has just their size. It is filled with zeros first, which
/// costs less than a second call for so few.
const SMALL: usize = 1 << 14;

/// Reads once. A call that a signal interrupts has read nothing.
fn read_once<F: Read>(file: &mut F, room: &mut [u8]) -> io::Result<usize>
    ensures fits { IfOk result (λ count. count ≤ length room.new) }
    ensures bytes { IfOk result (λ count. Consumes (F.remaining file.old) (F.remaining file.new) (take count room.new)) }
{
    match file.read(room) {
        Err(error) if error.kind() == ErrorKind::Interrupted => Ok(0),
        outcome => outcome,
    }
}

/// The first `size` bytes of a file, in room of their size. Most files give them by one call.
fn read_small<F: Read + Drop>(alloc: Global, mut file: F, size: usize) -> io::Result<Vec<u8>>
    ensures { IfOk result (λ bytes. IfSome (F.remaining file) (λ all. bytes.items ≡ take size all)) }
{
    let mut bytes = vec![in alloc; 0; size]?;
    let count = read_once(&mut file, &mut bytes)?;
    if count == size {
        return Ok(bytes);
    }
    bytes.truncate(count);
    file.take((size - count) as u64).read_to_end(&mut bytes)?;
    Ok(bytes)
}

/// The bytes of a file that was opened and had `size` of them when it was looked at: the first `size` of those that it
/// has now. Some file systems know no sizes, and say 0: then all are read.
pub(crate) fn read_bytes<F: Read + Drop>(
    alloc: Global,
    mut file: F,
    size: usize,
) -> io::Result<Vec<u8>>
    ensures first { 0 < size → IfOk result (λ bytes. IfSome (F.remaining file) (λ all. bytes.items ≡ take size all)) }
    ensures whole { size ≡ 0 → IfOk result (λ bytes. IfSome (F.remaining file) (λ all. bytes.items ≡ all)) }
{
    if 0 < size && size <= SMALL {
        return read_small(alloc, file, size);
    }
    let mut bytes = Vec::with_capacity(alloc, size)?;
    if size == 0 {
        file.read_to_end(&mut bytes)?;
    } else {
        // With a limit the system isn't asked once more whether the file has ended.
        file.take(size as u64).read_to_end(&mut bytes)?;
    }
    Ok(bytes)
}

/// The bytes of the file at a place, which had `size` of them when it was looked at. What it has grown by since isn't read.
pub(crate) fn read_file<C: ReadCalls>(
    calls: &C,
    alloc: Global,
    place: &PathBuf,
    size: u64,
) -> io::Result<Vec<u8>>
    ensures bytes { IfOk result (λ bytes. IsOpenedAs (C.opens calls.now) (path_buf_bytes place.now) size bytes.items) }
    ensures refused { IfErr result (λ error.
        IsRefusedAt (C.fails calls.now) (C.opens calls.now) (path_buf_bytes place.now) (error_kind error)) }
{
    read_bytes(alloc, calls.open(place)?, size as usize)
}

/// What the system says of a place, so far as a run asks.
fn seen_of(about: &Metadata) -> Seen
    ensures { IsToldAs about.now result }
{
    if about.is_dir() {
        return Seen::Directory;
    }
    if about.is_file() {
        return Seen::File(about.len());
    }
    Seen::Other
}

/// What a place leads to.
pub(crate) fn look_at<C: ReadCalls>(calls: &C, place: &PathBuf) -> io::Result<Seen>
    ensures seen { IfOk result (IsStandingAs (C.stands calls.now) (path_buf_bytes place.now)) }
    ensures missing { IfErr result (λ error. C.stands calls.now (path_buf_bytes place.now) (Err (error_kind error))) }
    ensures refused { IfErr result (λ error. C.fails calls.now (path_buf_bytes place.now) (error_kind error)) }
{
    let about = calls.look(place)?;
    Ok(seen_of(&about))
}

//! Which files are stored together, and by how many threads they are written.

ghost use Rattle.std.specs.Prelude.{◌≡◌, ◌<◌, length, take};

use redo_path::Path;
use redo_tree::Content;

/// How many files are written at most before the first of them gets its name. A run that is killed leaves at most
/// this many temporary files.
pub(crate) const FILES_OF_A_BATCH: usize = 256;

/// How many files there have to be for each thread, so that few files start no thread.
const FILES_OF_A_THREAD: usize = 16;

/// Whether the file could have the name of another's temporary file, also where the system takes capital letters for
/// small ones.
fn looks_temporary(path: &Path) -> bool {
    let front: &[u8] = b".redo-";
    path.name()
        .get(..front.len())
        .is_some_and(|name| name.eq_ignore_ascii_case(front))
}

/// The first files of a list, which are stored together: at most N. One that could have the name of another's
/// temporary file is stored by itself, so that it takes no such file's place.
pub(crate) fn front_of(files: &[(Path, Content)], most: usize) -> &[(Path, Content)]
    requires { 0 < length files.now }
    ensures some { 0 < length result.now }
    ensures front { result.now ≡ take (length result.now) files.now }
{
    let most = most.min(files.len());
    let others = files[..most]
        .iter()
        .take_while(|file| !looks_temporary(&file.0))
        .count();
    &files[..others.max(1)]
}

/// By how many threads files are written: by at most N workers, and by no more than have enough to do. Files of
/// one directory that are made at the same time wait for one another in the system, so there are no more threads than
/// directories that follow one another.
pub(crate) fn threads_for(workers: usize, files: &[(Path, Content)]) -> usize
    ensures { 0 < result }
{
    let turns = files
        .windows(2)
        .filter(|pair| pair[0].0.parent_text() != pair[1].0.parent_text())
        .count();
    (files.len() / FILES_OF_A_THREAD)
        .min(workers)
        .min(turns.saturating_add(1))
        .max(1)
}

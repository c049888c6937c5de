//! Files on their way into a directory: written under temporary names, by several threads, and then named in turn.

ghost use Rattle.std.specs.Prelude.{◌≡◌, ◌++◌, ◌∷◌, ◌<◌, [], IfErr, IfOk, IsUtf8, List, OnErr, OnOk, ℕ};
ghost use Rattle.std.specs.IoError.{error_kind};
ghost use Rattle.std.specs.List.{AllByRecursion};
ghost use Rattle.redo_dir.specs.inside.Batches.{Blames, GivesUpRest, IsGivenUp, IsWritten, MeansText, Names, asked, asked_of};

use crate::unwritten::Unwritten;
use crate::work_dir::WorkDir;
use redo_path::Path;
use redo_tree::Content;
use std::alloc::Global;
use std::io::ErrorKind;
use std::thread::Threads;
use std::{io, thread};

/// How many names are tried for a new file. Runs that were killed may each have left a batch of them.
const MOST_TRIES: u64 = 100_000;

/// A file that is to be stored.
#[derive(Drop)]
pub(crate) struct Draft<F: Drop> {
    pub path: Path,
    pub content: Content,
    /// Whether it takes the place of a file that was listed.
    pub over: bool,
    /// The temporary file, or the system's error. It is an error until the file was written, so that no file is left
    /// out in silence.
    pub written: Result<F, ErrorKind>,
}

impl<F: Drop> Draft<F> {
    /// Nothing was written yet.
    pub fn new(path: Path, content: Content, over: bool) -> Draft<F>
        ensures path { result.path ≡ path }
        ensures content { result.content ≡ content }
        ensures over { result.over ≡ over }
    {
        Draft {
            path,
            content,
            over,
            written: Err(ErrorKind::Other),
        }
    }
}

/// Writes a new file under the first temporary name that nothing has. The tries begin with the number `first`.
pub(crate) fn write_new<D: WorkDir>(
    dir: &D,
    alloc: Global,
    path: &Path,
    content: &Content,
    first: u64,
) -> io::Result<D::Draft>
    ensures draft { IfOk result (λ draft. D.Draft.drafted draft ≡ (path.now, content.now)) }
    ensures refused { IfErr result (λ error. D.refuses dir.now path.now (error_kind error)) }
{
    let end = first.saturating_add(MOST_TRIES);
    for number in first..end {
        match dir.draft(alloc, path, content, number) {
            Err(error) if error.kind() == ErrorKind::AlreadyExists => {}
            answer => return answer,
        }
    }
    dir.draft(alloc, path, content, end)
}

/// Writes one draft.
fn write<D: WorkDir>(draft: &mut Draft<D::Draft>, dir: &D, alloc: Global, first: u64)
    ensures path { draft.new.path ≡ draft.old.path }
    ensures content { draft.new.content ≡ draft.old.content }
    ensures over { draft.new.over ≡ draft.old.over }
    ensures written { IsWritten (λ path kind. (d : D) × D.refuses d path kind) D.Draft.drafted draft.new }
{
    draft.written = match write_new(dir, alloc, &draft.path, &draft.content, first) {
        Ok(file) => Ok(file),
        Err(error) => Err(error.kind()),
    };
}

/// Writes drafts by N threads. Each draft tries names from that of its own place on, so that those of one directory
/// seldom try the same.
pub(crate) fn write_by<T: Threads + Sync, D: WorkDir + Sync>(
    rt: &T,
    dir: &D,
    alloc: Global,
    threads: usize,
    drafts: &mut [Draft<D::Draft>],
)
where
    D::Draft: Send,
    requires threads { 0 < threads }
    ensures asked { asked drafts.new ≡ asked drafts.old }
    ensures written { AllByRecursion (IsWritten (λ path kind. (d : D) × D.refuses d path kind) D.Draft.drafted) drafts.new }
{
    let write_one = |number: usize, draft: &mut Draft<D::Draft>|
        ensures path { draft.new.path ≡ draft.old.path }
        ensures content { draft.new.content ≡ draft.old.content }
        ensures over { draft.new.over ≡ draft.old.over }
        ensures written { IsWritten (λ path kind. (d : D) × D.refuses d path kind) D.Draft.drafted draft.new }
    { write(draft, dir, alloc, number as u64) };
    thread::for_each_mut(rt, drafts, threads, &write_one);
}

/// Gives one draft its name.
fn name<D: WorkDir>(dir: &mut D, draft: Draft<D::Draft>) -> Result<(), Unwritten>
    requires { IsWritten (λ path kind. (d : D) × D.refuses d path kind) D.Draft.drafted draft }
    ensures text { (path : List ℕ) → IsUtf8 path → MeansText result path }
    ensures stored { OnOk result (D.done dir.new ≡ D.done dir.old ++ asked_of draft ∷ []) }
    ensures kept { OnErr result (D.done dir.new ≡ D.done dir.old) }
    ensures gone { OnErr result (IsGivenUp D.Draft.gone draft) }
    ensures refused { IfErr result (Blames (λ path kind. (d : D) × D.refuses d path kind) draft.path) }
{
    let Draft { over, written, .. } = draft;
    match written {
        Ok(file) => {
            dir.put(file, over)?;
            Ok(())
        }
        Err(kind) => Err(Unwritten::of(kind)),
    }
}

/// Removes one draft.
fn discard<D: WorkDir>(dir: &D, draft: Draft<D::Draft>)
    ensures { IsGivenUp D.Draft.gone draft }
{
    let Draft { written, .. } = draft;
    if let Ok(file) = written {
        dir.discard(file);
    }
}

/// Gives drafts that were written their names, in their order, up to the first that can't have its own. Of that one
/// and of those behind it nothing is left.
pub(crate) fn name_each<D: WorkDir>(
    dir: &mut D,
    drafts: Vec<Draft<D::Draft>>,
) -> Result<(), Unwritten>
    requires { AllByRecursion (IsWritten (λ path kind. (d : D) × D.refuses d path kind) D.Draft.drafted) drafts.items }
    ensures names { Names (λ path kind. (d : D) × D.refuses d path kind)
        (D.done dir.old) (asked drafts.items) (D.done dir.new) result }
    ensures gone { OnErr result (GivesUpRest D.Draft.gone (D.done dir.old) drafts.items (D.done dir.new)) }
{
    let mut outcome = Ok(());
    'drafts: for draft in drafts {
        if outcome.is_ok() {
            outcome = name(dir, draft);
        } else {
            discard(dir, draft);
        }
    }
    outcome
}

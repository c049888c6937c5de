//! What the names of directories lead to, looked at by several threads.

ghost use Rattle.std.specs.List.{AllByRecursion};
ghost use Rattle.std.specs.Prelude.{◌≡◌, ◌≤◌};
ghost use Rattle.redo_dir.specs.inside.Levels.{IsLooked, KeepsPaths};

use crate::work_dir::{DirView, Seen};
use redo_path::Path;
use std::alloc::Global;
use std::io::ErrorKind;
use std::thread;
use std::thread::Threads;

/// How many names a thread is to have at least, so that few names start no thread.
const NAMES_OF_A_THREAD: usize = 32;

/// How many of at most N threads have enough to do with so many names.
pub(crate) fn threads_for(names: usize, workers: usize) -> usize
    ensures { 1 ≤ result }
{
    (names / NAMES_OF_A_THREAD).min(workers).max(1)
}

/// A name of a directory that may stand in the tree.
#[derive(Drop)]
pub(crate) struct Name {
    pub path: Path,
    /// What it was looked at as, or the system's error. It is an error until the name was looked at, so that no name is
    /// left out in silence.
    pub seen: Result<Seen, ErrorKind>,
}

impl Name {
    /// A name that was not looked at yet.
    pub fn new(path: Path) -> Name
        ensures { result.path ≡ path }
    {
        Name {
            path,
            seen: Err(ErrorKind::Other),
        }
    }

    /// Finds out what the name leads to.
    #[tactic(auto, using(crate::proofs::LevelLemmas::looked_refused))]
    fn look<D: DirView>(&mut self, dir: &D, alloc: Global)
        ensures path { self.new.path ≡ self.old.path }
        ensures looked { IsLooked (D.looks dir.now) (D.refuses dir.now) self.new }
    {
        self.seen = match dir.look(alloc, &self.path) {
            Ok(seen) => Ok(seen),
            Err(error) => Err(error.kind()),
        };
    }
}

/// Looks at names, by at most N threads, the caller's among them, and by no more than have enough to do.
pub(crate) fn look_by<T: Threads + Sync, D: DirView + Sync>(
    rt: &T,
    dir: &D,
    alloc: Global,
    workers: usize,
    names: &mut [Name],
)
    ensures paths { KeepsPaths names.old names.new }
    ensures looked { AllByRecursion (IsLooked (D.looks dir.now) (D.refuses dir.now)) names.new }
{
    let threads = threads_for(names.len(), workers);
    thread::for_each_mut(rt, names, threads, &|_, name| name.look(dir, alloc));
}

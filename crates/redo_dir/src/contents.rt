//! The contents of the files that were found, read by several threads.

ghost use Rattle.std.specs.List.{AllByRecursion};
ghost use Rattle.std.specs.Prelude.{◌≡◌, IfErr, IfOk};
ghost use Rattle.redo_dir.specs.Loaded.{found_at, found_in, refusal_at, wants};
ghost use Rattle.redo_dir.specs.inside.Contents.{IsFilled, IsFilledAs, IsRefusal};

use crate::looking::threads_for;
use crate::work_dir::DirView;
use redo_names::PathSet;
use redo_path::Path;
use redo_tree::Content;
use std::alloc::Global;
use std::io::ErrorKind;
use std::thread;
use std::thread::Threads;

/// Which files of a directory are read.
#[derive(Drop)]
pub struct Wanted {
    /// Each file is, whatever the paths are.
    pub all: bool,
    pub paths: PathSet,
}

impl Wanted {
    /// Whether the file at a path is to be read.
    pub fn has(&self, path: &Path) -> bool
        ensures { result ≡ wants self.now path.now }
    {
        self.all || self.paths.contains(path)
    }
}

/// How files are read: by at most N threads, and which of them.
#[derive(Clone, Copy)]
pub struct Reading<'a> {
    pub workers: usize,
    pub wanted: &'a Wanted,
}

/// A path at which a directory or a file was seen.
#[derive(Drop)]
pub struct Place {
    pub path: Path,
    /// How many bytes the file had, or none for a directory.
    pub size: Option<u64>,
    /// The content of the file, if it was read, or the system's error.
    pub(crate) content: Result<Option<Content>, ErrorKind>,
}

/// The content of the file at a path that had `size` bytes when it was looked at. The thread that reads the bytes also
/// makes the tree's content.
fn read_at<D: DirView>(dir: &D, alloc: Global, path: &Path, size: u64) -> Result<Content, ErrorKind>
    ensures bytes { IfOk result (D.reads dir.now path.now size) }
    ensures refused { IfErr result (IsRefusal (D.refuses dir.now) path.now) }
{
    match dir.read(alloc, path, size) {
        Ok(bytes) => match Content::new(bytes) {
            Ok(content) => Ok(content),
            Err(_) => Err(ErrorKind::OutOfMemory),
        },
        Err(error) => Err(error.kind()),
    }
}

/// What is found at a path with a file of this size, or with a directory: the content of a file that is wanted.
fn content_at<D: DirView>(
    dir: &D,
    alloc: Global,
    path: &Path,
    size: Option<u64>,
    wanted: &Wanted,
) -> Result<Option<Content>, ErrorKind>
    ensures { IsFilledAs (wants wanted.now) (D.reads dir.now) (D.refuses dir.now) path.now size result }
{
    let Some(size) = size else {
        return Ok(None);
    };
    if !wanted.has(path) {
        return Ok(None);
    }
    match read_at(dir, alloc, path, size) {
        Ok(content) => Ok(Some(content)),
        Err(kind) => Err(kind),
    }
}

impl Place {
    /// A path that was looked at, and of which nothing was read.
    pub(crate) fn new(path: Path, size: Option<u64>) -> Place
        ensures { found_at result ≡ (path, size) }
    {
        Place {
            path,
            size,
            content: Ok(None),
        }
    }

    /// What the system said when the file was last read, if it refused that.
    pub fn refusal(&self) -> Option<ErrorKind>
        ensures { result ≡ refusal_at self.now }
    {
        match &self.content {
            Ok(_) => None,
            Err(kind) => Some(*kind),
        }
    }

    /// Reads the file anew, if it is one and is wanted.
    fn fill<D: DirView>(&mut self, dir: &D, alloc: Global, wanted: &Wanted)
        ensures found { found_at self.new ≡ found_at self.old }
        ensures filled { IsFilled (wants wanted.now) (D.reads dir.now) (D.refuses dir.now) self.new }
    {
        self.content = content_at(dir, alloc, &self.path, self.size, wanted);
    }
}

/// Reads the files that are wanted, by no more threads than have enough to do, the caller's among them.
pub(crate) fn fill_by<T: Threads + Sync, D: DirView + Sync>(
    rt: &T,
    dir: &D,
    alloc: Global,
    reading: Reading<'_>,
    places: &mut [Place],
)
    ensures found { found_in places.new ≡ found_in places.old }
    ensures filled { AllByRecursion
        (IsFilled (wants reading.entry.wanted.now) (D.reads dir.now) (D.refuses dir.now)) places.new }
{
    let Reading { workers, wanted } = reading;
    let threads = threads_for(places.len(), workers);
    thread::for_each_mut(
        rt,
        places,
        threads,
        &|_, place| place.fill(dir, alloc, wanted),
    );
}

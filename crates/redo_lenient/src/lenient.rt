//! The directory.

ghost use Rattle.std.specs.Prelude.{◌≡◌, IfErr, IfOk, true};
ghost use Rattle.std.specs.IoError.{error_kind};
ghost use Rattle.redo_dir.specs.Loaded.{names_in};
ghost use Rattle.redo_which.specs.Candidates.{book_path as path_of_book, journal_path as path_of_journal};
ghost use Rattle.redo_lenient.specs.Lenient.{IsHidden, NamesNoneBelow};

use crate::books::has_none_below;
use once_cell::race::OnceBox;
use redo_dir::{DirView, Seen, WorkDir, journal_path};
use redo_path::Path;
use redo_tree::Content;
use redo_which::BOOK;
use std::alloc::{AllocError, Global};
use std::io;
use std::io::ErrorKind;
use std::sync::atomic::AtomicBool;
use std::sync::atomic::Ordering::Relaxed;

/// A directory in which one below the top that may not be listed counts as empty, if no target of the book or of the journal
/// stands in it. All other calls go to the directory as it is.
#[derive(Drop)]
pub struct LenientDir<D> {
    dir: D,
    /// The first that was taken for empty.
    hidden: OnceBox<Path>,
    /// Whether another was.
    hides_more: AtomicBool,
}

impl<D: DirView> LenientDir<D> {
    /// This directory.
    pub fn new(alloc: Global, dir: D) -> LenientDir<D>
        ensures { result.dir ≡ dir }
    {
        LenientDir {
            dir,
            hidden: OnceBox::new(alloc),
            hides_more: AtomicBool::new(false),
        }
    }

    /// The first directory that was taken for empty, for messages.
    pub fn hidden(&self) -> Option<&Path> {
        self.hidden.get()
    }

    /// Whether another one was.
    pub fn hides_more(&self) -> bool {
        self.hides_more.load(Relaxed)
    }

    /// Notes that a directory is taken for empty.
    fn note(&self, alloc: Global, dir: &Path) -> Result<(), AllocError> {
        match self.hidden.get() {
            None => {
                let _kept = self.hidden.set(Box::new(alloc, dir.clone()?)?);
            }
            Some(first) if first == dir => {}
            Some(_) => self.hides_more.store(true, Relaxed),
        }
        Ok(())
    }

    /// Whether no book is known to stand at a place that has a target in a directory or below it.
    fn names_none_below(&self, alloc: Global, place: &Path, dir: &Path) -> bool
        ensures { result ≡ true →
            NamesNoneBelow (D.looks self.now.dir) (D.reads self.now.dir) (D.lacks self.now.dir) dir.now place.now }
    {
        match self.dir.look(alloc, place) {
            Ok(Seen::File(size)) => match self.dir.read(alloc, place, size) {
                Ok(text) => has_none_below(alloc, &text, dir),
                Err(_) => false,
            },
            Ok(Seen::Directory | Seen::Other) => false,
            Err(error) => error.kind() == ErrorKind::NotFound,
        }
    }

    /// The same of the book and of the journal.
    fn own_name_none_below(&self, alloc: Global, dir: &Path) -> Result<bool, AllocError>
        ensures book { IfOk result (λ none. none ≡ true →
            NamesNoneBelow (D.looks self.now.dir) (D.reads self.now.dir) (D.lacks self.now.dir) dir.now path_of_book) }
        ensures journal { IfOk result (λ none. none ≡ true →
            NamesNoneBelow (D.looks self.now.dir) (D.reads self.now.dir) (D.lacks self.now.dir) dir.now path_of_journal) }
    {
        let book = Path::of_text(alloc, BOOK)?;
        if !self.names_none_below(alloc, &book, dir) {
            return Ok(false);
        }
        let journal = journal_path(alloc)?;
        Ok(self.names_none_below(alloc, &journal, dir))
    }

    /// What counts as the names in a directory that the system refused to list: none, or the error.
    fn hide(&self, alloc: Global, dir: &Path, error: io::Error) -> io::Result<Vec<Option<String>>>
        requires refused { D.refuses self.now.dir dir.now (error_kind error) }
        ensures hidden { IfOk result (λ names. IsHidden (D.looks self.now.dir) (D.reads self.now.dir) (D.lacks self.now.dir)
            (D.refuses self.now.dir) dir.now (names_in names.items)) }
        ensures refused { IfErr result (λ other. other ≡ error) }
    {
        if error.kind() != ErrorKind::PermissionDenied {
            return Err(error);
        }
        if dir.text().is_empty() {
            return Err(error);
        }
        match self.own_name_none_below(alloc, dir) {
            Ok(true) if self.note(alloc, dir).is_ok() => Ok(Vec::new(alloc)),
            _ => Err(error),
        }
    }
}

impl<D: DirView> DirView for LenientDir<D> {
    ghost use Rattle.redo_lenient.specs.Lenient.{ListsOrHides};

    ghost lists = { λ d dir names. ListsOrHides (D.lists d.dir) (D.looks d.dir) (D.reads d.dir) (D.lacks d.dir) (D.refuses d.dir) dir names };

    ghost looks = { λ d path seen. D.looks d.dir path seen };

    ghost lacks = { λ d path. D.lacks d.dir path };

    ghost reads = { λ d path size bytes. D.reads d.dir path size bytes };

    ghost refuses = { λ d path kind. D.refuses d.dir path kind };

    fn list(&self, alloc: Global, dir: &Path) -> io::Result<Vec<Option<String>>> {
        match self.dir.list(alloc, dir) {
            Ok(names) => Ok(names),
            Err(error) => self.hide(alloc, dir, error),
        }
    }

    fn look(&self, alloc: Global, path: &Path) -> io::Result<Seen> {
        self.dir.look(alloc, path)
    }

    fn read(&self, alloc: Global, path: &Path, size: u64) -> io::Result<Vec<u8>> {
        self.dir.read(alloc, path, size)
    }
}

impl<D: WorkDir> WorkDir for LenientDir<D> {
    ghost done = { λ d. D.done d.dir };

    ghost tagged = { λ d. D.tagged d.dir };

    ghost settled = { λ d path. D.settled d.dir path };

    type Draft = D::Draft;

    fn journal(&mut self, alloc: Global, text: &Content) -> io::Result<()> {
        self.dir.journal(alloc, text)
    }

    fn resume(&mut self, alloc: Global, text: &Content) -> Result<(), AllocError> {
        self.dir.resume(alloc, text)
    }

    fn finish(&mut self, alloc: Global) -> io::Result<()> {
        self.dir.finish(alloc)
    }

    fn draft(
        &self,
        alloc: Global,
        path: &Path,
        content: &Content,
        number: u64,
    ) -> io::Result<D::Draft> {
        self.dir.draft(alloc, path, content, number)
    }

    fn put(&mut self, draft: D::Draft, over: bool) -> io::Result<()> {
        self.dir.put(draft, over)
    }

    fn remove(&mut self, alloc: Global, path: &Path) -> io::Result<()> {
        self.dir.remove(alloc, path)
    }

    fn settle(&mut self, alloc: Global, paths: &[Path]) -> io::Result<()> {
        self.dir.settle(alloc, paths)
    }

    fn count(&self) -> usize {
        self.dir.count()
    }

    fn discard(&self, draft: D::Draft) {
        self.dir.discard(draft);
    }
}

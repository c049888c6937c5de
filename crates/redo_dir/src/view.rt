//! A directory of the system that is looked at.

ghost use Rattle.std.specs.Path.{path_buf_bytes, path_join};
ghost use Rattle.std.specs.Prelude.{◌≡◌, ◌≢◌, IfErr, IfOk, true};
ghost use Rattle.std.specs.IoError.{error_kind};
ghost use Rattle.std.specs.declared.io.ErrorKind.TheVariants.{NotFound};
ghost use Rattle.redo_dir.specs.Refused.{is_of_redo};

use crate::calls::ReadCalls;
use crate::reading::{look_at, read_file};
use crate::system_calls::SystemCalls;
use crate::work_dir::{DirView, Seen};
use redo_path::Path;
use std::alloc::Global;
use std::io;
use std::io::ErrorKind;
use std::path::{Path as SystemPath, PathBuf};
use std::rt::Files;

/// A directory of the system that is looked at. It may itself be a link; what is below it is never reached by one.
#[derive(Drop)]
pub struct SystemView<'a, C> {
    pub(crate) calls: C,
    /// Where the directory is.
    pub(crate) top: &'a str,
}

impl<'a, R: Files> SystemView<'a, SystemCalls<&'a R>> {
    /// The directory at this path of the system.
    pub fn new(rt: &'a R, top: &'a str) -> SystemView<'a, SystemCalls<&'a R>> {
        SystemView {
            calls: SystemCalls::new(rt),
            top,
        }
    }
}

impl<'a, C: ReadCalls> SystemView<'a, C> {
    /// Where the system has a file or a directory of this path of text.
    pub(crate) fn text_place(&self, alloc: Global, text: &str) -> io::Result<PathBuf>
        ensures place { IfOk result (λ place. path_buf_bytes place ≡ path_join self.now.top.now text.now) }
        ensures own { IfErr result (λ error. is_of_redo (error_kind error) ≡ true) }
    {
        Ok(SystemPath::new(self.top).join(alloc, text)?)
    }

    /// Where the system has a path of the tree. The place is made in one block.
    pub(crate) fn place(&self, alloc: Global, path: &Path) -> io::Result<PathBuf>
        ensures place { IfOk result (λ place. path_buf_bytes place ≡ path_join self.now.top.now path.now) }
        ensures own { IfErr result (λ error. is_of_redo (error_kind error) ≡ true) }
        ensures other { IfErr result (λ error. error_kind error ≢ NotFound) }
    {
        let Ok(text) = str::from_utf8(path.text()) else {
            return Err(io::Error::from(ErrorKind::InvalidFilename));
        };
        let mut place = PathBuf::with_capacity(alloc, self.top.len() + text.len() + 2)?;
        place.push(self.top)?;
        place.push(text)?;
        Ok(place)
    }

    /// Where the system has a directory of the tree.
    pub(crate) fn dir_place(&self, alloc: Global, dir: &[u8]) -> io::Result<PathBuf>
        ensures place { IfOk result (λ place. path_buf_bytes place ≡ path_join self.now.top.now dir.now) }
        ensures own { IfErr result (λ error. is_of_redo (error_kind error) ≡ true) }
    {
        let Ok(text) = str::from_utf8(dir) else {
            return Err(io::Error::from(ErrorKind::InvalidFilename));
        };
        self.text_place(alloc, text)
    }
}

impl<'a, C: ReadCalls> DirView for SystemView<'a, C> {
    ghost use Rattle.std.specs.Prelude.{Err};
    ghost use Rattle.std.specs.Path.{path_join};
    ghost use Rattle.std.specs.declared.io.ErrorKind.TheVariants.{NotFound};
    ghost use Rattle.redo_dir.specs.Called.{IsOpenedAs, IsStandingAs};
    ghost use Rattle.redo_dir.specs.Refused.{IsRefusedAt};

    ghost lists = { λ d dir. C.lists d.calls (path_join d.top.now dir) };

    ghost looks = { λ d path. IsStandingAs (C.stands d.calls) (path_join d.top.now path) };

    ghost lacks = { λ d path. C.stands d.calls (path_join d.top.now path) (Err NotFound) };

    ghost reads = { λ d path. IsOpenedAs (C.opens d.calls) (path_join d.top.now path) };

    ghost refuses = { λ d path. IsRefusedAt (C.fails d.calls) (C.opens d.calls) (path_join d.top.now path) };

    fn list(&self, alloc: Global, dir: &Path) -> io::Result<Vec<Option<String>>> {
        let place = self.place(alloc, dir)?;
        self.calls.list(alloc, &place)
    }

    fn look(&self, alloc: Global, path: &Path) -> io::Result<Seen> {
        let place = self.place(alloc, path)?;
        look_at(&self.calls, &place)
    }

    fn read(&self, alloc: Global, path: &Path, size: u64) -> io::Result<Vec<u8>> {
        let place = self.place(alloc, path)?;
        read_file(&self.calls, alloc, &place, size)
    }
}

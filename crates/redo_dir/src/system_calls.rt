//! The calls of the system, passed through. What stands here isn't proved: no contract knows what the system does.

use crate::calls::{Calls, ClosedFile, NewFile, ReadCalls};
use std::alloc::Global;
use std::fs::{DirEntry, File, Metadata, OpenFile, Permissions};
use std::io::{ErrorKind, Write};
use std::path::PathBuf;
use std::rt::Files;
use std::{fs, io};

/// The calls of the system.
#[derive(Drop)]
pub struct SystemCalls<R> {
    rt: R,
}

impl<R: Files> SystemCalls<R> {
    pub fn new(rt: R) -> SystemCalls<R> {
        SystemCalls { rt }
    }
}

/// An open file of the system that was made new.
#[derive(Drop)]
pub struct SystemNew<F: Drop> {
    file: F,
}

/// A file of the system that was made new and closed.
#[derive(Drop)]
pub struct SystemClosed;

impl<F: OpenFile + Write + Drop> NewFile for SystemNew<F> {
    ghost made = { λ _ _. Unit {0} };

    ghost holds = { λ _ _ _ _. Unit {0} };

    ghost has = { λ _ _. Unit {0} };

    ghost fails = { λ _ _. Unit {0} };

    fn permissions(&self) -> io::Result<Permissions> {
        Ok(self.file.metadata()?.permissions())
    }

    fn permit(&self, permissions: Permissions) -> io::Result<()> {
        self.file.set_permissions(permissions)
    }

    fn write(&mut self, bytes: &[u8]) -> io::Result<()> {
        self.file.write_all(bytes)
    }

    fn sync(&mut self) -> io::Result<()> {
        self.file.sync_all()
    }
}

impl ClosedFile for SystemClosed {
    ghost made = { λ _ _. Unit {0} };

    ghost holds = { λ _ _ _ _. Unit {0} };

    ghost has = { λ _ _. Unit {0} };

    ghost fails = { λ _ _. Unit {0} };

    ghost stood = { λ _ _ _. Unit {0} };

    ghost gone = { λ _ _. Unit {0} };
}

/// A name as it was listed, or none where it isn't text.
fn name_of<F: Files + Drop>(
    alloc: Global,
    listed: io::Result<DirEntry<F, Global>>,
) -> io::Result<Option<String>> {
    match listed {
        Ok(entry) => Ok(Some(String::from_str(alloc, entry.file_name())?)),
        Err(error) if error.kind() == ErrorKind::InvalidFilename => Ok(None),
        Err(error) => Err(error),
    }
}

/// All names in a directory.
fn all_names<R: Files>(rt: &R, alloc: Global, place: &PathBuf) -> io::Result<Vec<Option<String>>> {
    let reader = (rt, alloc);
    let mut names = Vec::new(alloc);
    for listed in fs::read_dir(&reader, place.as_path())? {
        names.push(name_of(alloc, listed)?)?;
    }
    Ok(names)
}

impl<R: Files> ReadCalls for SystemCalls<R> {
    ghost stands = { λ _ _ _. Unit {0} };

    ghost opens = { λ _ _ _. Unit {0} };

    ghost lists = { λ _ _ _. Unit {0} };

    ghost fails = { λ _ _ _. Unit {0} };

    type Source = R::File;

    fn list(&self, alloc: Global, place: &PathBuf) -> io::Result<Vec<Option<String>>> {
        all_names(&self.rt, alloc, place)
    }

    fn look(&self, place: &PathBuf) -> io::Result<Metadata> {
        fs::symlink_metadata(&self.rt, place.as_path())
    }

    fn open(&self, place: &PathBuf) -> io::Result<R::File> {
        fs::open(&self.rt, place.as_path())
    }
}

impl<R: Files> Calls for SystemCalls<R> {
    ghost after = { λ _ _. Unit {0} };

    type New = SystemNew<R::File>;

    type Closed = SystemClosed;

    fn create(&self, place: &PathBuf) -> io::Result<SystemNew<R::File>> {
        Ok(SystemNew {
            file: File::create_new(&self.rt, place.as_path())?,
        })
    }

    fn close(&self, file: SystemNew<R::File>) -> SystemClosed {
        drop(file);
        SystemClosed
    }

    fn discard(&self, _file: &SystemClosed, place: &PathBuf) -> io::Result<()> {
        fs::remove_file(&self.rt, place.as_path())
    }

    fn find(&mut self, place: &PathBuf) -> io::Result<Metadata> {
        fs::symlink_metadata(&self.rt, place.as_path())
    }

    fn name(&mut self, _file: &SystemClosed, from: &PathBuf, to: &PathBuf) -> io::Result<()> {
        fs::rename(&self.rt, from.as_path(), to.as_path())
    }

    fn keep(&mut self, _file: &SystemClosed, _place: &PathBuf) {}

    fn rename(&mut self, from: &PathBuf, to: &PathBuf) -> io::Result<()> {
        fs::rename(&self.rt, from.as_path(), to.as_path())
    }

    fn unlink(&mut self, place: &PathBuf) -> io::Result<()> {
        fs::remove_file(&self.rt, place.as_path())
    }

    fn sync_names(&mut self, place: &PathBuf) -> io::Result<()> {
        fs::open(&self.rt, place.as_path())?.sync_all()
    }
}

//! A directory of the system in which a tree is unpacked.

ghost use Rattle.std.specs.Path.{path_buf_bytes, path_with_file_name};
ghost use Rattle.std.specs.Prelude.{◌≡◌, ◌++◌, ◌∷◌, [], IfOk, OnErr, OnOk, string_bytes};
ghost use Rattle.redo_pack.specs.Unpacks.{IsTemporary, all_made, file_of, temporary_name as temporary};

use crate::making::{Drafted, Making};
use redo_path::Path;
use redo_tree::Content;
use std::alloc::{AllocError, Global};
use std::fs::File;
use std::io::{ErrorKind, Write};
use std::path::{Path as SystemPath, PathBuf};
use std::rt::Files;
use std::{fs, io};

/// How many temporary names are tried for a file. A tree may have files with such names.
const MOST_TRIES: u64 = 100_000;

/// What was made in a directory of the system.
#[derive(Drop)]
pub enum Made {
    Directory(Path),
    File(Path, Content),
}

/// A directory of the system in which a tree is unpacked.
///
/// A file is written under a temporary name in its own directory, `.redo-unpack-0.tmp`, and then renamed. A tree may have
/// that name, too: so it is the first such name, by its number, that nothing has there and that isn't the file's own. One
/// file is written at a time, so a run that is killed leaves one such file at most.
#[derive(Drop)]
pub struct SystemTop<'a, R> {
    rt: &'a R,
    /// Where the directory is.
    top: &'a str,
    made: Vec<Made>,
}

/// A file of the system that was written under a temporary name.
#[derive(Drop)]
pub struct SystemDraft {
    path: Path,
    content: Content,
    /// Where it is to be.
    place: PathBuf,
    /// Where it is, and its name there.
    beside: PathBuf,
    name: String,
}

impl Drafted for SystemDraft {
    ghost use Rattle.std.specs.Prelude.{string_bytes};

    ghost drafted = { λ d. (d.path, d.content) };

    ghost named = { λ d. string_bytes d.name };
}

/// The temporary name with this number.
fn temporary_name(alloc: Global, number: u64) -> Result<String, AllocError>
    ensures { IfOk result (λ name. string_bytes name ≡ temporary number) }
{
    format!(in alloc; ".redo-unpack-{number}.tmp")
}

/// Where the file with this temporary name is, beside a place.
fn place_beside(alloc: Global, place: &PathBuf, name: &str) -> Result<PathBuf, AllocError>
    ensures { IfOk result (λ beside. path_buf_bytes beside ≡ path_with_file_name (path_buf_bytes place.now) name.now) }
{
    place.with_file_name(alloc, name)
}

/// Writes a new file and closes it, or leaves no file of its own.
fn write_new<R: Files>(rt: &R, place: &PathBuf, bytes: &[u8]) -> io::Result<()> {
    let mut file = File::create_new(rt, place.as_path())?;
    let outcome = file.write_all(bytes);
    drop(file);
    if outcome.is_err() {
        let _removed = fs::remove_file(rt, place.as_path());
    }
    outcome
}

/// Refuses a place where a file or a directory stands.
fn check_free<R: Files>(rt: &R, place: &PathBuf) -> io::Result<()> {
    match fs::symlink_metadata(rt, place.as_path()) {
        Ok(_) => Err(io::Error::from(ErrorKind::AlreadyExists)),
        Err(error) if error.kind() == ErrorKind::NotFound => Ok(()),
        Err(error) => Err(error),
    }
}

impl<'a, R: Files> SystemTop<'a, R> {
    /// The directory at this path of the system.
    pub fn new(rt: &'a R, alloc: Global, top: &'a str) -> SystemTop<'a, R> {
        SystemTop {
            rt,
            top,
            made: Vec::new(alloc),
        }
    }

    /// Where the system has a path of the tree.
    fn place(&self, alloc: Global, path: &Path) -> io::Result<PathBuf> {
        let Ok(text) = str::from_utf8(path.text()) else {
            return Err(io::Error::from(ErrorKind::InvalidFilename));
        };
        Ok(SystemPath::new(self.top).join(alloc, text)?)
    }

    /// The draft of a file under a temporary name that it may have; nothing is written yet.
    fn draft_as(
        &self,
        alloc: Global,
        path: &Path,
        content: &Content,
        name: String,
    ) -> io::Result<SystemDraft>
        ensures path { IfOk result (λ draft. draft.path ≡ path.now) }
        ensures content { IfOk result (λ draft. draft.content ≡ content.now) }
        ensures name { IfOk result (λ draft. draft.name ≡ name) }
    {
        let place = self.place(alloc, path)?;
        let beside = place_beside(alloc, &place, &name)?;
        Ok(SystemDraft {
            path: path.clone()?,
            content: content.clone()?,
            place,
            beside,
            name,
        })
    }

    /// Gives a draft its name, and notes that it has it.
    fn name(&mut self, draft: &SystemDraft) -> io::Result<()>
        ensures made { OnOk result (all_made self.new.made.items ≡
            all_made self.old.made.items ++ file_of (draft.now.path, draft.now.content) ∷ []) }
        ensures kept { OnErr result (all_made self.new.made.items ≡ all_made self.old.made.items) }
    {
        let made = Made::File(draft.path.clone()?, draft.content.clone()?);
        // So that no file gets a name that can't be noted.
        self.made.reserve(1)?;
        check_free(self.rt, &draft.place)?;
        fs::rename(self.rt, draft.beside.as_path(), draft.place.as_path())?;
        self.made.push(made)?;
        Ok(())
    }
}

impl<R: Files> Making for SystemTop<'_, R> {
    ghost use Rattle.redo_pack.specs.Unpacks.{all_made};

    ghost made = { λ d. all_made d.made.items };

    ghost refuses = { λ _ _ _. Unit {0} };

    type Draft = SystemDraft;

    fn make_dir(&mut self, alloc: Global, path: &Path) -> io::Result<()> {
        let place = self.place(alloc, path)?;
        let made = Made::Directory(path.clone()?);
        // So that nothing is made that can't be noted.
        self.made.reserve(1)?;
        fs::create_dir(self.rt, place.as_path())?;
        self.made.push(made)?;
        Ok(())
    }

    fn draft(&self, alloc: Global, path: &Path, content: &Content) -> io::Result<SystemDraft> {
        for number in 0..MOST_TRIES {
            let name = temporary_name(alloc, number)?;
            if name.as_bytes() == path.name() {
                continue;
            }
            let draft = self.draft_as(alloc, path, content, name)?;
            match write_new(self.rt, &draft.beside, content.bytes()) {
                Ok(()) => return Ok(draft),
                Err(error) if error.kind() == ErrorKind::AlreadyExists => {}
                Err(error) => return Err(error),
            }
        }
        Err(io::Error::from(ErrorKind::AlreadyExists))
    }

    fn put(&mut self, draft: SystemDraft) -> io::Result<()> {
        let outcome = self.name(&draft);
        if outcome.is_err() {
            let _removed = fs::remove_file(self.rt, draft.beside.as_path());
        }
        outcome
    }
}

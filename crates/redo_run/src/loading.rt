//! A directory as a run reads it: all of it, its names alone, or the files that are wanted.

ghost use Rattle.std.specs.Prelude.{◌≡◌, IfErr, IfOk};
ghost use Rattle.redo_dir.specs.Loaded.{AreNamesIn, HasNames, IsLoaded, IsRefusedBy, Leads, ReadIf, Unread, wants};
ghost use Rattle.redo_run.specs.DirFaults.{of_load};
ghost use Rattle.redo_run.specs.Directories.{AreFilesOrNone, IsBlocked, IsFileOrNone, IsUnread};
ghost use Rattle.redo_run.specs.inside.Loading.{HasNoOwnPlace, HasNoPlace};

use crate::{Cause, RunDirFault, Said};
use redo_dir::{
    DirView, LoadFault, Names, Reading, journal_path, list_names, load_dir, load_names,
};
use redo_past::book_path;
use redo_path::Path;
use redo_tree::Tree;
use std::alloc::Global;
use std::io::ErrorKind;
use std::thread::Threads;

/// The fault of a directory that can't be read. The cause names what can't. Want of memory in the load is that of the run.
fn unread(cause: &mut Cause, fault: LoadFault) -> RunDirFault
    ensures { result ≡ of_load fault }
{
    match fault {
        LoadFault::Device(path, kind) => {
            cause.note(&path, Said::System(kind));
            RunDirFault::Load
        }
        LoadFault::Memory => RunDirFault::Memory,
    }
}

/// Notes the first file for which memory lacked when it was read, if there is one: want of memory names no file.
fn note_too_large(cause: &mut Cause, names: &Names) {
    for place in &names.found {
        if place.refusal() == Some(ErrorKind::OutOfMemory) {
            cause.note(&place.path, Said::System(ErrorKind::OutOfMemory));
            return;
        }
    }
}

/// Whether something stands at a path that is no file of the tree: a link, say.
fn is_blocked<D: DirView>(
    dir: &D,
    alloc: Global,
    tree: &Tree,
    place: &Path,
) -> Result<bool, LoadFault>
    ensures blocked { IfOk result (IsBlocked (D.looks dir.now) (D.lacks dir.now) tree.now place.now) }
    ensures refused { IfErr result (IsRefusedBy (D.refuses dir.now)) }
{
    if tree.content(place).is_some() {
        return Ok(false);
    }
    match dir.look(alloc, place) {
        Ok(_) => Ok(true),
        Err(error) => match error.kind() {
            ErrorKind::NotFound => Ok(false),
            ErrorKind::OutOfMemory => Err(LoadFault::Memory),
            kind => Err(LoadFault::Device(place.clone()?, kind)),
        },
    }
}

/// Reads a directory by at most N threads. Where it can't be read, the cause names what can't.
pub fn load<T: Threads + Sync, D: DirView + Sync>(
    rt: &T,
    alloc: Global,
    dir: &D,
    workers: usize,
    cause: &mut Cause,
) -> Result<(Tree, u64), RunDirFault>
    ensures loaded { IfOk result (λ loaded. IsLoaded (D.lists dir.now) (Leads (D.looks dir.now) (D.reads dir.now)) loaded.0 loaded.1) }
    ensures unread { IfErr result (IsUnread (D.lists dir.now) (D.looks dir.now) (D.reads dir.now) (D.refuses dir.now)) }
{
    match load_dir(rt, dir, alloc, workers) {
        Ok(loaded) => Ok(loaded),
        Err(fault) => Err(unread(cause, fault)),
    }
}

/// A place where a run wants a file or nothing.
#[derive(Drop)]
struct FilePlace {
    path: Path,
    /// What is said of anything else there.
    no_file: Said,
}

/// Refuses a directory in which something stands in the place of the book or of the journal that is no file of the tree. A
/// run without its book would take each file for a source. The cause names the place.
fn check_place<D: DirView>(
    dir: &D,
    alloc: Global,
    tree: &Tree,
    place: &FilePlace,
    cause: &mut Cause,
) -> Result<(), RunDirFault>
    ensures alone { IfOk result (λ _. IsFileOrNone (D.lacks dir.now) tree.now place.now.path) }
    ensures refused { IfErr result (HasNoPlace (D.looks dir.now) (D.refuses dir.now) tree.now place.now.path) }
{
    match is_blocked(dir, alloc, tree, &place.path) {
        Ok(false) => Ok(()),
        Ok(true) => {
            cause.note(&place.path, place.no_file);
            Err(RunDirFault::Load)
        }
        Err(fault) => Err(unread(cause, fault)),
    }
}

/// The same for the places of the book and of the journal.
fn check_places<D: DirView>(
    dir: &D,
    alloc: Global,
    tree: &Tree,
    cause: &mut Cause,
) -> Result<(), RunDirFault>
    ensures own { IfOk result (λ _. AreFilesOrNone (D.lacks dir.now) tree.now) }
    ensures refused { IfErr result (HasNoOwnPlace (D.looks dir.now) (D.refuses dir.now) tree.now) }
{
    let book = FilePlace {
        path: book_path(alloc)?,
        no_file: Said::NoFile,
    };
    check_place(dir, alloc, tree, &book, cause)?;
    let journal = FilePlace {
        path: journal_path(alloc)?,
        no_file: Said::NoJournalFile,
    };
    check_place(dir, alloc, tree, &journal, cause)
}

/// Finds what a directory has, by at most N threads. Where that can't be done, the cause names where.
pub(crate) fn list<T: Threads + Sync, D: DirView + Sync>(
    rt: &T,
    alloc: Global,
    dir: &D,
    workers: usize,
    cause: &mut Cause,
) -> Result<Names, RunDirFault>
    ensures names { IfOk result (AreNamesIn (D.lists dir.now) (D.looks dir.now)) }
    ensures unread { IfErr result (IsUnread (D.lists dir.now) (D.looks dir.now) (D.reads dir.now) (D.refuses dir.now)) }
{
    match list_names(rt, dir, alloc, workers) {
        Ok(names) => Ok(names),
        Err(fault) => Err(unread(cause, fault)),
    }
}

/// What a load is lent: threads, and memory.
#[derive(Drop)]
pub(crate) struct Lent<'a, T> {
    pub rt: &'a T,
    pub alloc: Global,
}

/// Reads the files that are wanted, and makes a tree of what was found. The book has to be a file if there is one, and the
/// journal too.
pub(crate) fn load_wanted<T: Threads + Sync, D: DirView + Sync>(
    lent: &Lent<'_, T>,
    dir: &D,
    names: &mut Names,
    reading: Reading<'_>,
    cause: &mut Cause,
) -> Result<Tree, RunDirFault>
    requires names { AreNamesIn (D.lists dir.now) (D.looks dir.now) names.old }
    ensures names { AreNamesIn (D.lists dir.now) (D.looks dir.now) names.new }
    ensures passed { names.new.passed ≡ names.old.passed }
    ensures loaded { IfOk result (λ tree. IsLoaded (D.lists dir.now)
        (Leads (D.looks dir.now) (ReadIf (wants reading.entry.wanted.now) (D.reads dir.now))) tree names.old.passed) }
    ensures own { IfOk result (AreFilesOrNone (D.lacks dir.now)) }
    ensures unread { IfErr result (IsUnread (D.lists dir.now) (D.looks dir.now) (D.reads dir.now) (D.refuses dir.now)) }
{
    match names.load(lent.rt, dir, lent.alloc, reading) {
        Ok(tree) => {
            check_places(dir, lent.alloc, &tree, cause)?;
            Ok(tree)
        }
        Err(fault) => {
            note_too_large(cause, names);
            Err(unread(cause, fault))
        }
    }
}

/// Reads the names of a directory, and none of its files. Where that can't be done, the cause names where.
pub(crate) fn load_unread<T: Threads + Sync, D: DirView + Sync>(
    rt: &T,
    alloc: Global,
    dir: &D,
    cause: &mut Cause,
) -> Result<(Tree, u64), RunDirFault>
    ensures named { IfOk result (λ loaded. HasNames (D.lists dir.now) (D.looks dir.now) loaded.0 loaded.1) }
    ensures unread { IfErr result (IsUnread (D.lists dir.now) (D.looks dir.now) Unread (D.refuses dir.now)) }
{
    match load_names(rt, dir, alloc, 1) {
        Ok(loaded) => Ok(loaded),
        Err(fault) => Err(unread(cause, fault)),
    }
}

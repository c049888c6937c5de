//! What a run over a directory stores.

ghost use Rattle.std.specs.Prelude.{◌≡◌, ◌++◌, IfErr, IfOk, OnOk, option_map};
ghost use Rattle.redo_run.specs.Storing.{others_from, stands_in, to_store as what_to_store};
ghost use Rattle.redo_run.specs.inside.Storing.{IsPart, LeavesPart, StoresPart, steps_left, steps_new, view_of};
ghost use Rattle.redo_which.specs.Candidates.{book_path};

use crate::dir_fault::of_left;
use crate::{Cause, Host, RunDirFault};
use redo_dir::{Left, ToStore, WorkDir, Writers, clear, store_by_journal};
use redo_path::Path;
use redo_tree::{Content, Tree};
use redo_which::BOOK;
use std::alloc::{AllocError, Global};
use std::thread::Threads;

/// Whether the tree has the file as it is. The bytes of one that was kept are those of the tree's, not a copy.
pub fn is_unchanged(tree: &Tree, file: &(Path, Content)) -> bool
    ensures { result ≡ stands_in tree.now file.now }
{
    match tree.content(&file.0) {
        Some(content) => *content == file.1,
        None => false,
    }
}

/// Whether the tree has this text as that of its book.
fn has_same_book(tree: &Tree, book: &Content) -> bool
    ensures { result ≡ stands_in tree.now (book_path, book.now) }
{
    match tree.file_by_text(BOOK) {
        Some(text) => text == book.bytes(),
        None => false,
    }
}

/// The files that the tree doesn't have as they are: so what stands is not stored again.
fn others(
    alloc: Global,
    tree: &Tree,
    files: &[(Path, Content)],
) -> Result<Vec<(Path, Content)>, AllocError>
    ensures { IfOk result (λ others. others.items ≡ others_from tree.now files.now) }
{
    let mut others = Vec::new(alloc);
    for file in files {
        if !is_unchanged(tree, file) {
            let (path, content) = file;
            others.push((path.clone()?, content.clone()?))?;
        }
    }
    Ok(others)
}

/// What a run stores of its report: the new book, and the files that the tree doesn't have as they came out. Nothing if it
/// has all of them and the book.
pub(crate) fn to_store(
    alloc: Global,
    tree: &Tree,
    files: &[(Path, Content)],
    book: &Content,
) -> Result<Option<ToStore>, AllocError>
    ensures { IfOk result (λ new. option_map view_of new ≡ what_to_store tree.now files.now book.now) }
{
    let files = others(alloc, tree, files)?;
    if files.is_empty() && has_same_book(tree, book) {
        return Ok(None);
    }
    let book = book.clone()?;
    Ok(Some(ToStore { book, files }))
}

/// What a run does to its directory.
#[derive(Drop)]
pub(crate) struct Plan {
    /// What a run that was broken off has left, to be cleared away.
    pub left: Option<Left>,
    /// Whether a file was listed in the book's place.
    pub over: bool,
    pub new: Option<ToStore>,
    /// At most so many threads write.
    pub workers: usize,
}

/// Clears away what a run has left that was broken off. Where it can't be, the cause names the file.
fn clear_left<D: WorkDir>(
    dir: &mut D,
    alloc: Global,
    plan: &Plan,
    cause: &mut Cause,
) -> Result<(), RunDirFault>
    ensures all { OnOk result (D.done dir.new ≡ D.done dir.old ++ steps_left plan.now) }
    ensures part { IfErr result (LeavesPart (λ path kind. (d : D) × D.refuses d path kind)
        (steps_left plan.now) (D.done dir.old) (D.done dir.new)) }
{
    let Some(left) = &plan.left else {
        return Ok(());
    };
    match clear(dir, alloc, left, plan.over) {
        Ok(()) => Ok(()),
        Err(fault) => {
            cause.note_left(left, fault);
            Err(of_left(fault))
        }
    }
}

/// Stores the files that are planned to be. Where one can't be stored, the cause names it.
fn store<H: Threads + Sync, D: WorkDir + Sync, O>(
    host: &Host<'_, H, O>,
    dir: &mut D,
    tree: &Tree,
    plan: &Plan,
    cause: &mut Cause,
) -> Result<(), RunDirFault>
where
    D::Draft: Send,
    ensures all { OnOk result (D.done dir.new ≡ D.done dir.old ++ steps_new tree.now plan.now) }
    ensures part { IfErr result (StoresPart (λ path kind. (d : D) × D.refuses d path kind)
        (steps_new tree.now plan.now) (D.done dir.old) (D.done dir.new)) }
{
    let Some(new) = &plan.new else {
        return Ok(());
    };
    let writers = Writers {
        rt: host.rt,
        most: plan.workers,
    };
    match store_by_journal(&writers, dir, host.alloc(), tree, new) {
        Ok(()) => Ok(()),
        Err(fault) => {
            cause.note_unstored(&new.files, fault);
            Err(RunDirFault::from(fault))
        }
    }
}

/// Does to a directory what is planned, over the tree that was built: first what has to be cleared away, then what is to
/// be stored.
pub(crate) fn carry_out<H: Threads + Sync, D: WorkDir + Sync, O>(
    host: &Host<'_, H, O>,
    dir: &mut D,
    tree: &Tree,
    plan: &Plan,
    cause: &mut Cause,
) -> Result<(), RunDirFault>
where
    D::Draft: Send,
    ensures all { OnOk result (D.done dir.new ≡ D.done dir.old ++ (steps_left plan.now ++ steps_new tree.now plan.now)) }
    ensures part { IfErr result (IsPart (λ path kind. (d : D) × D.refuses d path kind)
        (steps_left plan.now) (steps_new tree.now plan.now) (D.done dir.old) (D.done dir.new)) }
{
    clear_left(dir, host.alloc(), plan, cause)?;
    store(host, dir, tree, plan, cause)
}

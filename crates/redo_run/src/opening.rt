//! A directory that is asked about, and isn't built.
//!
//! What is answered rests on names, the book and the files that the book names; where a run was broken off, on its
//! journal and what that names, too. So only these files are read. All are where the book that comes of them names
//! others, or is refused.

ghost use Rattle.std.specs.Prelude.{◌≡◌, IfErr, IfOk, IfSome, true};
ghost use Rattle.redo_dir.specs.Loaded.{AreNamesIn, wants};
ghost use Rattle.redo_reads.specs.Reads.{HasBook};
ghost use Rattle.redo_run.specs.Directories.{IsUnread};
ghost use Rattle.redo_run.specs.Opening.{IsOpened, IsOpenedOf, IsUnopened, IsUnopenedOf};

use crate::coverage::{book_is_read, is_mending_read};
use crate::laws::runs_rest_on_what_they_read;
use crate::loading::{Lent, list, load_wanted};
use crate::wanting::wanted_by_books;
use crate::{Cause, RunDirFault};
use redo_book::BookFault;
use redo_dir::{DirView, Left, Names, Reading, Wanted};
use redo_mend::{Mended, mend};
use redo_names::PathSet;
use redo_past::{Past, book_path, has_book};
use redo_tree::Tree;
use std::alloc::{AllocError, Global};
use std::thread::Threads;

/// What is known of a directory that is asked about, and isn't built.
#[derive(Drop)]
pub struct Opened {
    /// The past of the tree, which was mended where a run was broken off. A file that wasn't read is empty in it.
    pub past: Past,
    /// What such a run has left.
    pub left: Option<Left>,
    /// Whether a file was found in the book's place, before the tree was mended.
    pub over: bool,
    /// How many names were passed over, as `load_dir` says.
    pub passed: u64,
}

/// Mends a tree that was loaded, and opens its past, with the help of at most N threads.
fn open_over<T: Threads + Sync>(
    lent: &Lent<'_, T>,
    workers: usize,
    tree: Tree,
    passed: u64,
) -> Result<Opened, BookFault>
    ensures opened { IfOk result (IsOpenedOf tree passed) }
    ensures refused { IfErr result (IsUnopenedOf tree) }
{
    tree.is_tree();
    let over = has_book(&tree);
    let Mended { tree, left } = mend(lent.rt, lent.alloc, workers, tree)?;
    tree.is_tree();
    let past = Past::open_by(lent.rt, lent.alloc, workers, tree)?;
    Ok(Opened {
        past,
        left,
        over,
        passed,
    })
}

/// Whether the book of a past and the files that it names were read.
fn is_past_read(alloc: Global, past: &Past, wanted: &Wanted) -> Result<bool, AllocError>
    ensures { IfOk result (λ all. all ≡ true → HasBook (wants wanted.now) past.now.tree past.now.book) }
{
    let place = book_path(alloc)?;
    Ok(book_is_read(past.tree(), wanted, past.book(), &place))
}

/// Opens a directory by some of its files. Answers nothing where what came of them rests on others.
fn open_part<T: Threads + Sync, D: DirView + Sync>(
    lent: &Lent<'_, T>,
    dir: &D,
    names: &mut Names,
    reading: Reading<'_>,
    cause: &mut Cause,
) -> Result<Option<Opened>, RunDirFault>
    requires names { AreNamesIn (D.lists dir.now) (D.looks dir.now) names.old }
    ensures names { AreNamesIn (D.lists dir.now) (D.looks dir.now) names.new }
    ensures opened { IfOk result (λ found. IfSome found
        (IsOpened (D.lists dir.now) (D.looks dir.now) (D.reads dir.now) (D.lacks dir.now))) }
    ensures unread { IfErr result (IsUnread (D.lists dir.now) (D.looks dir.now) (D.reads dir.now) (D.refuses dir.now)) }
{
    runs_rest_on_what_they_read();
    let passed = names.passed;
    let tree = load_wanted(lent, dir, names, reading, cause)?;
    if !is_mending_read(lent.alloc, &tree, reading.wanted)? {
        return Ok(None);
    }
    match open_over(lent, reading.workers, tree, passed) {
        Ok(opened) => {
            if is_past_read(lent.alloc, &opened.past, reading.wanted)? {
                Ok(Some(opened))
            } else {
                Ok(None)
            }
        }
        // A book is refused only by all files.
        Err(BookFault::Line(_)) => Ok(None),
        Err(BookFault::Memory) => Err(RunDirFault::Memory),
    }
}

/// Opens a directory by all of its files.
fn open_all<T: Threads + Sync, D: DirView + Sync>(
    lent: &Lent<'_, T>,
    dir: &D,
    names: &mut Names,
    workers: usize,
    cause: &mut Cause,
) -> Result<Opened, RunDirFault>
    requires names { AreNamesIn (D.lists dir.now) (D.looks dir.now) names.old }
    ensures opened { IfOk result (IsOpened (D.lists dir.now) (D.looks dir.now) (D.reads dir.now) (D.lacks dir.now)) }
    ensures fault { IfErr result (IsUnopened (D.lists dir.now) (D.looks dir.now) (D.reads dir.now) (D.refuses dir.now)) }
{
    let passed = names.passed;
    let wanted = Wanted {
        all: true,
        paths: PathSet::new(lent.alloc),
    };
    let reading = Reading {
        workers,
        wanted: &wanted,
    };
    let tree = load_wanted(lent, dir, names, reading, cause)?;
    Ok(open_over(lent, workers, tree, passed)?)
}

/// Finds what a directory has, and reads what questions, cleans and `--take` look into: the book with the files that it
/// names, and the journal of a run that was broken off with those that it names. Opens the past of the tree, mended if
/// there is a journal. The directory stays as it is.
///
/// What was read decides what is opened: each tree with these names and these contents is mended alike, and has the
/// same book, and the same files where that names them, whatever is in the others.
///
/// A book is refused only once all files were read. Where a directory can't be read, or something else than a file
/// stands in the place of the book or of the journal, the cause names what it is.
pub fn open_dir<T: Threads + Sync, D: DirView + Sync>(
    rt: &T,
    alloc: Global,
    dir: &D,
    workers: usize,
    cause: &mut Cause,
) -> Result<Opened, RunDirFault>
    ensures opened { IfOk result (IsOpened (D.lists dir.now) (D.looks dir.now) (D.reads dir.now) (D.lacks dir.now)) }
    ensures fault { IfErr result (IsUnopened (D.lists dir.now) (D.looks dir.now) (D.reads dir.now) (D.refuses dir.now)) }
{
    let lent = Lent { rt, alloc };
    let mut names = list(rt, alloc, dir, workers, cause)?;
    let wanted = wanted_by_books(alloc, dir, &names)?;
    let reading = Reading {
        workers,
        wanted: &wanted,
    };
    if let Some(opened) = open_part(&lent, dir, &mut names, reading, cause)? {
        return Ok(opened);
    }
    open_all(&lent, dir, &mut names, workers, cause)
}

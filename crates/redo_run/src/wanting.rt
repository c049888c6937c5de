//! Which files a run reads: at first those that it is likely to need, and then what its report names besides. Nothing is
//! promised of them, as a run holds whichever it reads.

use crate::foreseen::Foreseen;
use redo_book::{Book, BookEntry, BookRecord, read_book};
use redo_dir::{DirView, Names, Place, Wanted, journal_path};
use redo_names::PathSet;
use redo_past::book_path;
use redo_path::Path;
use redo_tree::Tree;
use redo_which::{BOOK, JOURNAL};
use std::alloc::{AllocError, Global};

/// Where the files of a directory have at most so many bytes together, all are read.
const FEW_BYTES: u64 = 16 * 1024 * 1024;

/// How many bytes the files have together, or as many as can be counted.
fn bytes_of(places: &[Place]) -> u64 {
    let mut bytes = 0u64;
    for place in places {
        bytes = bytes.saturating_add(place.size.unwrap_or(0));
    }
    bytes
}

/// The book that the file at a place has the text of, or none where it can't be read: a load then tells why.
fn book_at<D: DirView>(alloc: Global, dir: &D, place: &Place) -> Option<Book> {
    let text = dir.read(alloc, &place.path, place.size?).ok()?;
    read_book(alloc, &text).ok()
}

/// Adds the targets of a book.
fn add_targets(paths: &mut PathSet, book: &Book) -> Result<(), AllocError> {
    for record in book.records() {
        paths.insert(record.target.clone()?)?;
    }
    Ok(())
}

/// Adds the paths that a record has under `change`.
fn add_entries(paths: &mut PathSet, record: &BookRecord) -> Result<(), AllocError> {
    for entry in &record.entries {
        if let BookEntry::Change(_, path) = entry {
            paths.insert(path.clone()?)?;
        }
    }
    Ok(())
}

/// Adds the paths that a book names.
fn add_named(paths: &mut PathSet, book: &Book) -> Result<(), AllocError> {
    add_targets(paths, book)?;
    for record in book.records() {
        add_entries(paths, record)?;
    }
    Ok(())
}

/// Adds the paths that the record of a target has under `change`, if a book has one.
fn add_entries_of(paths: &mut PathSet, book: &Book, target: &Path) -> Result<(), AllocError> {
    match book.find(target) {
        Some(record) => add_entries(paths, record),
        None => Ok(()),
    }
}

/// What these paths rest on by a book: what their records name, what the records of those name, and so on.
fn rested_on(alloc: Global, book: &Book, paths: &[Path]) -> Result<PathSet, AllocError> {
    let mut found = PathSet::new(alloc);
    for path in paths {
        add_entries_of(&mut found, book, path)?;
    }
    for at in 0..usize::MAX {
        if at >= found.len() {
            return Ok(found);
        }
        let next = found.at(at).clone()?;
        add_entries_of(&mut found, book, &next)?;
    }
    Ok(found)
}

/// The books that the files in the places of the book and of the journal have the text of.
fn books_in<D: DirView>(alloc: Global, dir: &D, names: &Names) -> Result<Vec<Book>, AllocError> {
    let mut books = Vec::new(alloc);
    for place in &names.found {
        let path = place.path.text();
        if path == BOOK || path == JOURNAL {
            if let Some(book) = book_at(alloc, dir, place) {
                books.push(book)?;
            }
        }
    }
    Ok(books)
}

/// The book and the journal, whether they are there or not: a journal that is recovered makes a book.
fn wanted_own(alloc: Global) -> Result<Wanted, AllocError> {
    let mut paths = PathSet::new(alloc);
    paths.insert(book_path(alloc)?)?;
    paths.insert(journal_path(alloc)?)?;
    Ok(Wanted { all: false, paths })
}

/// The files to read where nothing is built: the book and the journal, and what both name.
pub(crate) fn wanted_by_books<D: DirView>(
    alloc: Global,
    dir: &D,
    names: &Names,
) -> Result<Wanted, AllocError> {
    let mut wanted = wanted_own(alloc)?;
    for book in &books_in(alloc, dir, names)? {
        add_named(&mut wanted.paths, book)?;
    }
    Ok(wanted)
}

/// The files to read for a build of these paths where not all are: the scripts, the book and the journal with the files at
/// the targets of both, and what the paths rest on by them.
pub(crate) fn wanted_for<D: DirView>(
    alloc: Global,
    dir: &D,
    names: &Names,
    request: &[Path],
) -> Result<Wanted, AllocError> {
    let mut wanted = wanted_own(alloc)?;
    for book in &books_in(alloc, dir, names)? {
        add_targets(&mut wanted.paths, book)?;
        for path in rested_on(alloc, book, request)?.into_paths() {
            wanted.paths.insert(path)?;
        }
    }
    for place in &names.found {
        if place.path.text().ends_with(b".do") {
            wanted.paths.insert(place.path.clone()?)?;
        }
    }
    Ok(wanted)
}

/// Adds the file at a path, and the targets of the book that it has the text of in a tree.
fn want_said(
    alloc: Global,
    wanted: &mut Wanted,
    tree: &Tree,
    path: Path,
) -> Result<(), AllocError> {
    if let Some(text) = tree.content(&path) {
        if let Ok(book) = read_book(alloc, text.bytes()) {
            add_targets(&mut wanted.paths, &book)?;
        }
    }
    wanted.paths.insert(path)?;
    Ok(())
}

/// The places of files that couldn't be read, without those that were noted before. The book and the journal aren't among
/// them.
fn newly_refused(
    alloc: Global,
    places: &[Place],
    refused: &PathSet,
) -> Result<PathSet, AllocError> {
    let mut unread = PathSet::new(alloc);
    for place in places {
        let path = place.path.text();
        if place.refusal().is_some()
            && path != BOOK
            && path != JOURNAL
            && !refused.contains(&place.path)
        {
            unread.insert(place.path.clone()?)?;
        }
    }
    Ok(unread)
}

/// The files to read first for a build of these paths: all, where they have few bytes.
pub(crate) fn wanted_first<D: DirView>(
    alloc: Global,
    dir: &D,
    names: &Names,
    request: &[Path],
) -> Result<Wanted, AllocError> {
    if bytes_of(&names.found) <= FEW_BYTES {
        let paths = PathSet::new(alloc);
        return Ok(Wanted { all: true, paths });
    }
    wanted_for(alloc, dir, names, request)
}

/// Adds what mending a tree looks into: the journal and the book, and the targets of both.
pub(crate) fn want_mended(
    alloc: Global,
    wanted: &mut Wanted,
    tree: &Tree,
) -> Result<(), AllocError> {
    want_said(alloc, wanted, tree, journal_path(alloc)?)?;
    want_said(alloc, wanted, tree, book_path(alloc)?)
}

/// Wants no longer what couldn't be read, and notes that. It may be that nobody needs it; not so the book, the journal, and
/// what was noted before and was wanted again. Answers whether any file is wanted no longer.
pub(crate) fn want_less(
    alloc: Global,
    names: &Names,
    wanted: &mut Wanted,
    refused: &mut PathSet,
) -> Result<bool, AllocError> {
    let unread = newly_refused(alloc, &names.found, refused)?;
    if unread.is_empty() {
        return Ok(false);
    }
    let mut paths = PathSet::new(alloc);
    for path in wanted.paths.as_slice() {
        if !unread.contains(path) {
            paths.insert(path.clone()?)?;
        }
    }
    wanted.paths = paths;
    for path in unread.into_paths() {
        refused.insert(path)?;
    }
    Ok(true)
}

/// Adds what a build came to look into.
pub(crate) fn want_more(
    alloc: Global,
    wanted: &mut Wanted,
    foreseen: &Foreseen,
) -> Result<(), AllocError> {
    let (book, report) = (foreseen.run.past.book(), &foreseen.run.report);
    add_targets(&mut wanted.paths, book)?;
    for row in &report.rows {
        add_entries_of(&mut wanted.paths, book, &row.path)?;
        for dep in row.deps.entries(alloc)? {
            wanted.paths.insert(dep.path)?;
        }
    }
    for (path, _) in &report.files {
        wanted.paths.insert(path.clone()?)?;
    }
    Ok(())
}

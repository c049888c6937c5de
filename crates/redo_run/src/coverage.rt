//! Whether a run has read all files that its build looked into, and the mending of its tree before.

ghost use Rattle.std.specs.Arc.{arc_value};
ghost use Rattle.std.specs.List.{AllByRecursion};
ghost use Rattle.std.specs.Prelude.{◌≡◌, ◌∷◌, [], IfOk, List, Some, flat_map, map, true};
ghost use Rattle.redo_book.specs.Book.{Record, record_at, record_of, targets_of};
ghost use Rattle.redo_dir.specs.Loaded.{wants};
ghost use Rattle.redo_past.specs.Past.{IsBookOf};
ghost use Rattle.redo_reads.specs.Reads.{Covers, HasReads, changed_in, named_by};
ghost use Rattle.redo_record.specs.Entries.{same_kind};
ghost use Rattle.redo_record.specs.declared.deps.DepKind.TheVariants.{Change};
ghost use Rattle.redo_run.specs.Reading.{HasMended};
ghost use Rattle.redo_run.specs.inside.Foreseen.{IsCoveredBy};
ghost use Rattle.redo_tree.specs.Tree.{file_at};
ghost use Rattle.redo_which.specs.Rule.{is_file};

use crate::foreseen::Foreseen;
use redo_book::{Book, BookEntry, BookFault, BookRecord, read_book};
use redo_dir::{Wanted, journal_path};
use redo_past::{Past, book_path};
use redo_path::Path;
use redo_record::{Dep, DepKind};
use redo_report::Row;
use redo_tree::{Content, Tree};
use std::alloc::{AllocError, Global};

/// Whether a path was read, if the tree has a file there.
fn is_read(tree: &Tree, wanted: &Wanted, path: &Path) -> bool
    ensures { result ≡ true → is_file tree.now path.now ≡ true → wants wanted.now path.now ≡ true }
{
    tree.content(path).is_none() || wanted.has(path)
}

/// Whether a source that an entry of a record has was read.
fn dep_is_read(tree: &Tree, wanted: &Wanted, dep: &Dep) -> bool
    ensures { result ≡ true → same_kind Change dep.now.kind ≡ true → is_file tree.now dep.now.path ≡ true →
        wants wanted.now dep.now.path ≡ true }
{
    match dep.kind {
        DepKind::Change => is_read(tree, wanted, &dep.path),
        DepKind::Create | DepKind::Always => true,
    }
}

/// Whether the sources that a record has were read.
fn are_read(tree: &Tree, wanted: &Wanted, deps: &[Dep]) -> bool
    ensures { result ≡ true → HasReads (wants wanted.now) tree.now deps.now }
{
    for dep in deps {
        if !dep_is_read(tree, wanted, dep) {
            return false;
        }
    }
    true
}

/// Whether the sources that the rows of a report have were read.
fn rows_are_read(
    alloc: Global,
    tree: &Tree,
    wanted: &Wanted,
    rows: &[Row],
) -> Result<bool, AllocError>
    ensures { IfOk result (λ all. all ≡ true →
        AllByRecursion (λ row. HasReads (wants wanted.now) tree.now (arc_value row.deps)) rows.now) }
{
    for row in rows {
        let deps = row.deps.entries(alloc)?;
        if !are_read(tree, wanted, &deps) {
            return Ok(false);
        }
    }
    Ok(true)
}

/// Whether the path of an entry under `change` was read.
fn entry_is_read(tree: &Tree, wanted: &Wanted, entry: &BookEntry) -> bool
    ensures { result ≡ true → Covers (wants wanted.now) tree.now (changed_in entry.now) }
{
    match entry {
        BookEntry::Change(_, path) => is_read(tree, wanted, path),
        BookEntry::Create(_) | BookEntry::Always => true,
    }
}

/// Whether the paths under `change` were read.
fn entries_are_read(tree: &Tree, wanted: &Wanted, entries: &[BookEntry]) -> bool
    ensures { result ≡ true → Covers (wants wanted.now) tree.now (flat_map changed_in entries.now) }
{
    for entry in entries {
        if !entry_is_read(tree, wanted, entry) {
            return false;
        }
    }
    true
}

/// Whether the paths that a record of a book names were read.
fn record_is_read(tree: &Tree, wanted: &Wanted, made: &BookRecord) -> bool
    ensures { result ≡ true → Covers (wants wanted.now) tree.now (named_by (record_of made.now)) }
{
    is_read(tree, wanted, &made.target) && entries_are_read(tree, wanted, &made.entries)
}

/// Whether the paths that the records of a book name were read.
fn records_are_read(tree: &Tree, wanted: &Wanted, records: &[BookRecord]) -> bool
    ensures { result ≡ true → Covers (wants wanted.now) tree.now (flat_map (λ r. named_by (record_of r)) records.now) }
{
    for record in records {
        if !record_is_read(tree, wanted, record) {
            return false;
        }
    }
    true
}

/// Whether what stands where these files are to be stored was read.
fn places_are_read(tree: &Tree, wanted: &Wanted, files: &[(Path, Content)]) -> bool
    ensures { result ≡ true → Covers (wants wanted.now) tree.now (flat_map (λ f. f.0 ∷ []) files.now) }
{
    for file in files {
        if !is_read(tree, wanted, &file.0) {
            return false;
        }
    }
    true
}

/// Whether the files at the targets of these records were read.
fn targets_are_read(tree: &Tree, wanted: &Wanted, records: &[BookRecord]) -> bool
    ensures { result ≡ true → Covers (wants wanted.now) tree.now (flat_map (λ r. r.target ∷ []) records.now) }
{
    for record in records {
        if !is_read(tree, wanted, &record.target) {
            return false;
        }
    }
    true
}

/// Whether the files at the targets of a book were read.
fn book_targets_are_read(tree: &Tree, wanted: &Wanted, book: &Book) -> bool
    ensures { result ≡ true → Covers (wants wanted.now) tree.now (targets_of book.now) }
{
    targets_are_read(tree, wanted, book.records())
}

/// Whether the book of a tree, at this path, and the files at its targets were read.
fn kept_are_read(tree: &Tree, wanted: &Wanted, book: &Book, place: &Path) -> bool
    ensures { result ≡ true → Covers (wants wanted.now) tree.now (place.now ∷ targets_of book.now) }
{
    is_read(tree, wanted, place) && book_targets_are_read(tree, wanted, book)
}

/// Whether the book of a tree, at this path, and the paths that it names were read.
pub(crate) fn book_is_read(tree: &Tree, wanted: &Wanted, book: &Book, place: &Path) -> bool
    ensures { result ≡ true → Covers (wants wanted.now) tree.now (place.now ∷ flat_map named_by book.now) }
{
    is_read(tree, wanted, place) && records_are_read(tree, wanted, book.records())
}

/// Whether the paths were read that the record of a row's target names, if the book has one.
fn row_is_checked(past: &Past, wanted: &Wanted, row: &Row) -> bool
    ensures { result ≡ true → (r : Record) → record_at past.now.book row.now.path ≡ Some r →
        Covers (wants wanted.now) past.now.tree (flat_map changed_in r.entries) }
{
    match past.book().find(&row.path) {
        Some(made) => entries_are_read(past.tree(), wanted, &made.entries),
        None => true,
    }
}

/// Whether the paths were read that the records of these rows' targets name.
fn rows_are_checked(past: &Past, wanted: &Wanted, rows: &[Row]) -> bool
    ensures { result ≡ true → AllByRecursion (λ row. (r : Record) → record_at past.now.book row.path ≡ Some r →
        Covers (wants wanted.now) past.now.tree (flat_map changed_in r.entries)) rows.now }
{
    for row in rows {
        if !row_is_checked(past, wanted, row) {
            return false;
        }
    }
    true
}

/// Whether what stands in the book's place, which is this path, and where these files are to be stored was read.
fn stored_are_read(tree: &Tree, wanted: &Wanted, files: &[(Path, Content)], place: &Path) -> bool
    ensures { result ≡ true → Covers (wants wanted.now) tree.now (place.now ∷ map (λ f. f.0) files.now) }
{
    is_read(tree, wanted, place) && places_are_read(tree, wanted, files)
}

/// Whether all files were read that a build looked into, so that what it came to holds whatever is in the others.
pub(crate) fn is_covered(
    alloc: Global,
    foreseen: &Foreseen,
    wanted: &Wanted,
) -> Result<bool, AllocError>
    ensures { IfOk result (λ all. all ≡ true → IsCoveredBy (wants wanted.now) foreseen.now) }
{
    let (past, report) = (&foreseen.run.past, &foreseen.run.report);
    let place = book_path(alloc)?;
    if !kept_are_read(past.tree(), wanted, past.book(), &place) {
        return Ok(false);
    }
    if !rows_are_checked(past, wanted, &report.rows) {
        return Ok(false);
    }
    if !stored_are_read(&foreseen.mended, wanted, &report.files, &place) {
        return Ok(false);
    }
    rows_are_read(alloc, past.sources(), wanted, &report.rows)
}

/// Whether the file at a path was read, and those at the targets of the book that it has the text of. A text that is no
/// book's has none.
fn said_are_read(
    alloc: Global,
    tree: &Tree,
    wanted: &Wanted,
    place: &Path,
) -> Result<bool, AllocError>
    ensures place { IfOk result (λ all. all ≡ true → is_file tree.now place.now ≡ true → wants wanted.now place.now ≡ true) }
    ensures targets { IfOk result (λ all. all ≡ true → (book : List Record) → IsBookOf (file_at tree.now place.now) book →
        Covers (wants wanted.now) tree.now (targets_of book)) }
{
    let Some(text) = tree.content(place) else {
        return Ok(true);
    };
    if !wanted.has(place) {
        return Ok(false);
    }
    match read_book(alloc, text.bytes()) {
        Ok(book) => Ok(book_targets_are_read(tree, wanted, &book)),
        Err(BookFault::Line(_)) => Ok(true),
        Err(BookFault::Memory) => Err(AllocError),
    }
}

/// Whether all files were read that mending a tree looks into. Without a journal those are none.
pub(crate) fn is_mending_read(
    alloc: Global,
    tree: &Tree,
    wanted: &Wanted,
) -> Result<bool, AllocError>
    ensures { IfOk result (λ all. all ≡ true → HasMended (wants wanted.now) tree.now) }
{
    let journal = journal_path(alloc)?;
    if tree.content(&journal).is_none() {
        return Ok(true);
    }
    if !said_are_read(alloc, tree, wanted, &journal)? {
        return Ok(false);
    }
    let book = book_path(alloc)?;
    said_are_read(alloc, tree, wanted, &book)
}

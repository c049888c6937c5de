//! Who names a path, and which names a book knows.

ghost use Rattle.std.specs.Prelude.{◌≡◌, ◌++◌, [], IfOk, OnOk, map};
ghost use Rattle.std.specs.List.{cons_option};
ghost use Rattle.redo_book.specs.Book.{record_of, targets_of as targets_in};
ghost use Rattle.redo_names.specs.Paths.{is_among};
ghost use Rattle.redo_query.specs.Names.{known_names, names_in, path_in as path_of_entry, users as users_in};

use crate::named::{names, path_in};
use redo_book::{Book, BookEntry, BookRecord};
use redo_path::Path;
use std::alloc::{AllocError, Global};

/// The targets whose records name a path, in path order.
pub(crate) fn users<'a>(
    alloc: Global,
    book: &'a Book,
    path: &Path,
) -> Result<Vec<&'a Path>, AllocError>
    ensures { IfOk result (λ paths. map (λ p. p.now) paths.items ≡ users_in book.now path.now) }
{
    let mut paths = Vec::new(alloc);
    for made in book.records() {
        if names(made, path) {
            paths.push(&made.target)?;
        }
    }
    Ok(paths)
}

/// Adds the path that an entry names, if it names one.
fn add_name<'a>(known: &mut Vec<&'a Path>, entry: &'a BookEntry) -> Result<(), AllocError>
    ensures { OnOk result (map (λ p. p.now) known.new.items ≡
        map (λ p. p.now) known.old.items ++ cons_option (path_of_entry entry.entry.now) []) }
{
    match path_in(entry) {
        Some(path) => {
            known.push(path)?;
            Ok(())
        }
        None => Ok(()),
    }
}

/// Adds a record's target, and the paths that it names.
fn add_names<'a>(known: &mut Vec<&'a Path>, made: &'a BookRecord) -> Result<(), AllocError>
    ensures { OnOk result (map (λ p. p.now) known.new.items ≡
        map (λ p. p.now) known.old.items ++ names_in (record_of made.entry.now)) }
{
    known.push(&made.target)?;
    for entry in &made.entries {
        add_name(known, entry)?;
    }
    Ok(())
}

/// All names that a book knows, as they follow one another in it.
pub(crate) fn known_names<'a>(alloc: Global, book: &'a Book) -> Result<Vec<&'a Path>, AllocError>
    ensures { IfOk result (λ known. map (λ p. p.now) known.items ≡ known_names book.now) }
{
    let mut known = Vec::new(alloc);
    for made in book.records() {
        add_names(&mut known, made)?;
    }
    Ok(known)
}

/// Whether a path is one of these.
pub(crate) fn is_one(paths: &[&Path], path: &Path) -> bool
    ensures { result ≡ is_among (map (λ p. p.now) paths.now) path.now }
{
    for other in paths {
        if *other == path {
            return true;
        }
    }
    false
}

/// The targets of a book, in path order.
pub(crate) fn targets_of<'a>(alloc: Global, book: &'a Book) -> Result<Vec<&'a Path>, AllocError>
    ensures { IfOk result (λ paths. map (λ p. p.now) paths.items ≡ targets_in book.now) }
{
    let mut paths = Vec::new(alloc);
    for made in book.records() {
        paths.push(&made.target)?;
    }
    Ok(paths)
}

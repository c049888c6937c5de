//! Which paths the records of a book name.

ghost use Rattle.std.specs.Prelude.{◌≡◌, ◌||◌, List, ℕ, IfOk, OnOk, map, option_copied};
ghost use Rattle.std.specs.List.{list_any};
ghost use Rattle.redo_names.specs.Paths.{is_among};
ghost use Rattle.redo_book.specs.Book.{record_of};
ghost use Rattle.redo_query.specs.Names.{is_of as is_entry_of, names as names_path, path_in as path_of_entry};

use redo_book::{BookEntry, BookRecord};
use redo_names::PathSet;
use redo_path::Path;
use std::alloc::{AllocError, Global};

/// The path that an entry names, if it names one.
pub(crate) fn path_in(entry: &BookEntry) -> Option<&Path>
    ensures { option_copied result ≡ path_of_entry entry.now }
{
    match entry {
        BookEntry::Change(_, path) | BookEntry::Create(path) => Some(path),
        BookEntry::Always => None,
    }
}

/// Whether an entry names a path.
fn is_of(entry: &BookEntry, path: &Path) -> bool
    ensures { result ≡ is_entry_of path.now entry.now }
{
    match entry {
        BookEntry::Change(_, other) | BookEntry::Create(other) => other == path,
        BookEntry::Always => false,
    }
}

/// Whether a record names a path.
pub(crate) fn names(made: &BookRecord, path: &Path) -> bool
    ensures { result ≡ names_path path.now (record_of made.now) }
{
    made.entries.iter().any(|entry| is_of(entry, path))
}

/// Adds the path that an entry names, if it names one.
fn add_path(named: &mut PathSet, entry: &BookEntry) -> Result<(), AllocError>
    ensures { OnOk result ((path : List ℕ) → is_among named.new path ≡
        (is_among named.old path || is_entry_of path entry.now)) }
{
    match path_in(entry) {
        Some(path) => {
            named.insert(path.clone()?)?;
            Ok(())
        }
        None => Ok(()),
    }
}

/// Adds the paths that a record names.
fn add_named(named: &mut PathSet, made: &BookRecord) -> Result<(), AllocError>
    ensures { OnOk result ((path : List ℕ) → is_among named.new path ≡
        (is_among named.old path || names_path path (record_of made.now))) }
{
    for entry in &made.entries {
        add_path(named, entry)?;
    }
    Ok(())
}

/// The paths that these records name.
pub(crate) fn named_by(alloc: Global, records: &[&BookRecord]) -> Result<PathSet, AllocError>
    ensures { IfOk result (λ named. (path : List ℕ) → is_among named path ≡
        list_any (names_path path) (map (λ made. record_of made.now) records.now)) }
{
    let mut named = PathSet::new(alloc);
    for made in records {
        add_named(&mut named, made)?;
    }
    Ok(named)
}

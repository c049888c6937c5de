//! The files that a book has digests of.

use crate::hints::RecordHints;
use crate::records::has_record;
use redo_book::{Book, BookEntry};
use redo_digest::Digest;
use redo_path::Path;
use redo_record::DepKind;
use redo_report::Row;
use redo_tree::Tree;
use std::alloc::{AllocError, Global};

/// Marks what the tree has at a path, if anything, and returns its number.
fn name(named: &mut [bool], tree: &Tree, path: &Path) -> Option<usize> {
    let number = tree.number_of(path)?;
    if let Some(is_named) = named.get_mut(number) {
        *is_named = true;
    }
    Some(number)
}

/// The same, if the book has a digest for the path.
fn name_told(
    named: &mut [bool],
    tree: &Tree,
    path: &Path,
    state: &Option<Digest>,
) -> Option<usize> {
    if state.is_some() {
        name(named, tree, path)
    } else {
        None
    }
}

/// Marks the files that these entries have digests of.
fn name_entries(named: &mut [bool], tree: &Tree, entries: &[BookEntry]) {
    for entry in entries {
        if let BookEntry::Change(state, path) = entry {
            name_told(named, tree, path, state);
        }
    }
}

/// Which files of a tree the book has digests of, by their numbers in the tree. Each of them is compared with its
/// digest in the book, some of them many times, so they are digested once before. Notes the record of each target that
/// is among them.
pub(crate) fn named_by(
    alloc: Global,
    tree: &Tree,
    book: &Book,
    hints: &mut RecordHints,
) -> Result<Vec<bool>, AllocError> {
    let mut named = Vec::new(alloc);
    named.resize(tree.len(), false)?;
    let records = book.records();
    for index in 0..records.len() {
        let record = &records[index];
        if let Some(number) = name_told(&mut named, tree, &record.target, &record.state) {
            hints.note(number, index);
        }
        name_entries(&mut named, tree, &record.entries);
    }
    Ok(named)
}

/// Marks what a row's target depends on, if the new book has a record of it.
fn name_needs(named: &mut [bool], tree: &Tree, row: &Row) {
    if !has_record(row) {
        return;
    }
    let parts = row.deps.parts();
    if let Some(do_file) = parts.do_file {
        name(named, tree, do_file);
    }
    for dep in parts.own {
        if dep.kind == DepKind::Change {
            name(named, tree, &dep.path);
        }
    }
}

/// Which files of a tree the new book will have digests of, by their numbers in the tree.
pub(crate) fn named_after(
    alloc: Global,
    tree: &Tree,
    rows: &[Row],
) -> Result<Vec<bool>, AllocError> {
    let mut named = Vec::new(alloc);
    named.resize(tree.len(), false)?;
    for row in rows {
        name_needs(&mut named, tree, row);
    }
    Ok(named)
}

/// A source of so many bytes is long: its digest alone is worth some of a thread's time.
pub(crate) const LONG: usize = 4_096;

/// The size of a source, if it is long.
fn long_size(tree: &Tree, path: &Path) -> usize {
    match tree.file(path) {
        Some(bytes) if bytes.len() >= LONG => bytes.len(),
        _ => 0,
    }
}

/// How many bytes the long sources have that a row's target depends on, if the new book has a record of it.
fn long_bytes_of(tree: &Tree, row: &Row) -> usize {
    if !has_record(row) {
        return 0;
    }
    let parts = row.deps.parts();
    let mut size = match parts.do_file {
        Some(do_file) => long_size(tree, do_file),
        None => 0,
    };
    for dep in parts.own {
        if dep.kind == DepKind::Change {
            size = size.saturating_add(long_size(tree, &dep.path));
        }
    }
    size
}

/// How many bytes the long sources have that the new book will have digests of. One that several targets depend on counts
/// for each.
pub(crate) fn long_bytes(tree: &Tree, rows: &[Row]) -> usize {
    let mut size = 0usize;
    for row in rows {
        size = size.saturating_add(long_bytes_of(tree, row));
    }
    size
}

//! Who needs a path, directly or through others.
//!
//! First each target that is found is followed by an index, and then all records are gone through until a round finds no
//! more. Mostly one round does: it shows that none was missed.

ghost use Rattle.std.specs.Prelude.{◌≡◌, ◌⊎◌, ◌↔◌, ◌||◌, List, ℕ, IfOk, OnOk, filter, map, true, false};
ghost use Rattle.std.specs.List.{list_any};
ghost use Rattle.redo_book.specs.Book.{record_of, targets_of};
ghost use Rattle.redo_names.specs.Paths.{IsAmong, is_among};
ghost use Rattle.redo_query.specs.Names.{AreNeeding, names as names_path, users};
ghost use Rattle.redo_query.specs.inside.Found.{AllNeed, IsClosed, NeedsBy, names_one};

use crate::index::Index;
use crate::named::{names, path_in};
use redo_book::{Book, BookEntry, BookRecord};
use redo_names::PathSet;
use redo_path::Path;
use std::alloc::{AllocError, Global};

/// Notes the target of a record, if it names this path.
fn note_user(found: &mut PathSet, made: &BookRecord, path: &Path) -> Result<(), AllocError>
    ensures { OnOk result ((target : List ℕ) → IsAmong found.new target →
        IsAmong found.old target ⊎ ((names_path path.now (record_of made.now) ≡ true) × (made.now.target ≡ target))) }
{
    if names(made, path) {
        found.insert(made.target.clone()?)?;
        return Ok(());
    }
    Ok(())
}

/// Notes the target of the record with a number, if it names this path.
fn note_numbered(
    found: &mut PathSet,
    records: &[BookRecord],
    number: usize,
    path: &Path,
) -> Result<(), AllocError>
    ensures { OnOk result ((target : List ℕ) → IsAmong found.new target →
        IsAmong found.old target ⊎ IsAmong (users (map record_of records.now) path.now) target) }
{
    if number >= records.len() {
        return Ok(());
    }
    note_user(found, &records[number], path)?;
    Ok(())
}

/// Notes those of the numbered records that name a path.
fn note_users(
    found: &mut PathSet,
    records: &[BookRecord],
    numbers: &[usize],
    path: &Path,
) -> Result<(), AllocError>
    ensures { OnOk result ((target : List ℕ) → IsAmong found.new target →
        IsAmong found.old target ⊎ IsAmong (users (map record_of records.now) path.now) target) }
{
    for number in numbers {
        note_numbered(found, records, *number, path)?;
    }
    Ok(())
}

/// What the index finds: those that name the path, those that name one of these, and so on.
fn follow(alloc: Global, records: &[BookRecord], path: &Path) -> Result<PathSet, AllocError>
    ensures { IfOk result (AllNeed (map record_of records.now) path.now) }
{
    let index = Index::of(alloc, records)?;
    let mut found = PathSet::new(alloc);
    note_users(&mut found, records, index.users(path), path)?;
    for at in 0..usize::MAX {
        if at >= found.len() {
            return Ok(found);
        }
        let next = found.at(at).clone()?;
        note_users(&mut found, records, index.users(&next), &next)?;
    }
    Ok(found)
}

/// Whether an entry names one of those that were found.
fn names_found(found: &PathSet, entry: &BookEntry) -> bool
    ensures { result ≡ names_one found.now entry.now }
{
    match path_in(entry) {
        Some(path) => found.contains(path),
        None => false,
    }
}

/// Whether one of these entries names one of those that were found.
fn name_found(found: &PathSet, entries: &[BookEntry]) -> bool
    ensures { result ≡ list_any (names_one found.now) entries.now }
{
    entries.iter().any(|entry| names_found(found, entry))
}

/// Whether a record names the path or one of those that were found.
fn needs(found: &PathSet, made: &BookRecord, path: &Path) -> bool
    ensures { (result ≡ true) ↔ NeedsBy found.now path.now (record_of made.now) }
{
    names(made, path) || name_found(found, &made.entries)
}

/// Notes the target of a record, if it needs the path. Answers whether it is new.
fn visit(found: &mut PathSet, made: &BookRecord, path: &Path) -> Result<bool, AllocError>
    ensures only { OnOk result ((target : List ℕ) → IsAmong found.new target →
        IsAmong found.old target ⊎ (NeedsBy found.old path.now (record_of made.now) × (made.now.target ≡ target))) }
    ensures same { IfOk result (λ new. new ≡ false → found.new ≡ found.old) }
    ensures there { IfOk result (λ new. new ≡ false →
        NeedsBy found.old path.now (record_of made.now) → IsAmong found.old made.now.target) }
{
    if needs(found, made, path) {
        let (_, new) = found.insert(made.target.clone()?)?;
        return Ok(new);
    }
    Ok(false)
}

fn either(one: bool, other: bool) -> bool
    ensures { result ≡ (one || other) }
{
    one || other
}

/// Goes through all records, and notes the targets that need the path. Answers whether one was new.
fn round(found: &mut PathSet, records: &[BookRecord], path: &Path) -> Result<bool, AllocError>
    ensures need { OnOk result (AllNeed (map record_of records.now) path.now found.old →
        AllNeed (map record_of records.now) path.now found.new) }
    ensures closed { IfOk result (λ more. more ≡ false → IsClosed (map record_of records.now) path.now found.new) }
{
    let mut more = false;
    for made in records {
        let new = visit(found, made, path)?;
        more = either(more, new);
    }
    Ok(more)
}

/// All that need a path.
fn closed(alloc: Global, records: &[BookRecord], path: &Path) -> Result<PathSet, AllocError>
    ensures need { IfOk result (AllNeed (map record_of records.now) path.now) }
    ensures closed { IfOk result (IsClosed (map record_of records.now) path.now) }
{
    let mut found = follow(alloc, records, path)?;
    for _ in 0..usize::MAX {
        if !round(&mut found, records, path)? {
            return Ok(found);
        }
    }
    // No book of so many records fits into memory.
    Err(AllocError)
}

/// Those of the targets of a book that were found, in path order.
fn in_order<'a>(alloc: Global, book: &'a Book, found: &PathSet) -> Result<Vec<&'a Path>, AllocError>
    ensures { IfOk result (λ targets. map (λ p. p.now) targets.items ≡
        targets_of (filter (λ r. is_among found.now r.target) book.now)) }
{
    let mut targets = Vec::new(alloc);
    for made in book.records() {
        if found.contains(&made.target) {
            targets.push(&made.target)?;
        }
    }
    Ok(targets)
}

/// The targets that need a path, directly or through others, in path order.
pub(crate) fn needing<'a>(
    alloc: Global,
    book: &'a Book,
    path: &Path,
) -> Result<Vec<&'a Path>, AllocError>
    ensures { IfOk result (λ targets. AreNeeding book.now path.now (map (λ p. p.now) targets.items)) }
{
    let found = closed(alloc, book.records(), path)?;
    let targets = in_order(alloc, book, &found)?;
    Ok(targets)
}

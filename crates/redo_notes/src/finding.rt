//! What is found of each kind of note.

ghost use Rattle.std.specs.Prelude.{◌≡◌, ◌++◌, [], IfOk, OnOk};
ghost use Rattle.std.specs.List.{cons_option};
ghost use Rattle.redo_names.specs.Paths.{is_among};
ghost use Rattle.redo_tree.specs.Tree.{node_of};
ghost use Rattle.redo_book.specs.Book.{record_of};
ghost use Rattle.redo_notes.specs.Notes.{do_file_of as file_of_rule, is_ruleless as has_no_rule, is_unmade as was_unmade};
ghost use Rattle.redo_notes.specs.Notes.{has_record as is_recorded, shadowed as shadowed_in, shadowed_at as shadowed_by};
ghost use Rattle.redo_notes.specs.Notes.{is_within as stands_within, shadowed_within as shadowed_in_places};
ghost use Rattle.redo_notes.specs.Notes.{ruleless as ruleless_in, unbuilt as unbuilt_in, unbuilt_at as unbuilt_by, unmade as unmade_in};

use crate::asked::asked_by;
use crate::kinds::{Notes, Unbuilt};
use redo_book::{Book, BookRecord};
use redo_names::PathSet;
use redo_past::{Past, is_generated};
use redo_path::Path;
use redo_record::Outcome;
use redo_report::{Report, Row};
use redo_tree::{Entry, Tree};
use redo_which::lookup::{chosen, has_rule};
use std::alloc::{AllocError, Global};

/// The .do file that the search for a path's rule chooses.
fn do_file_of(alloc: Global, sources: &Tree, path: &Path) -> Result<Option<Path>, AllocError>
    ensures { IfOk result (λ file. file ≡ file_of_rule sources.now path.now) }
{
    match chosen(alloc, sources, path)? {
        Some(candidate) => Ok(Some(candidate.do_file)),
        None => Ok(None),
    }
}

/// Whether the book has a record of a path.
fn has_record(book: &Book, path: &Path) -> bool
    ensures { result ≡ is_recorded book.now path.now }
{
    book.find(path).is_some()
}

/// The note of an entry of the sources, if it is a file that was asked for and has a rule.
fn unbuilt_at(
    alloc: Global,
    past: &Past,
    asked: &PathSet,
    path: &Path,
    entry: &Entry,
) -> Result<Option<Unbuilt>, AllocError>
    ensures { IfOk result (λ note. note ≡
        unbuilt_by past.now.sources (is_among asked.now) (is_recorded past.now.book) (path.now, node_of entry.now)) }
{
    if !matches!(entry, Entry::File(_)) || !asked.contains(path) {
        return Ok(None);
    }
    match do_file_of(alloc, past.sources(), path)? {
        Some(do_file) => Ok(Some(Unbuilt {
            path: path.clone()?,
            do_file,
            recorded: has_record(past.book(), path),
        })),
        None => Ok(None),
    }
}

/// Adds a note, if there is one.
fn add_note(notes: &mut Vec<Unbuilt>, note: Option<Unbuilt>) -> Result<(), AllocError>
    ensures { OnOk result (notes.new.items ≡ notes.old.items ++ cons_option note []) }
{
    match note {
        Some(note) => {
            notes.push(note)?;
            Ok(())
        }
        None => Ok(()),
    }
}

/// The sources that were asked for and have a rule, in path order.
fn unbuilt(
    alloc: Global,
    past: &Past,
    request: &[Path],
    report: &Report,
) -> Result<Vec<Unbuilt>, AllocError>
    ensures { IfOk result (λ notes. notes.items ≡ unbuilt_in past.now request.now report.now) }
{
    let asked = asked_by(alloc, request, &report.rows)?;
    let mut notes = Vec::new(alloc);
    for (path, entry) in past.sources().in_order(alloc)? {
        let note = unbuilt_at(alloc, past, &asked, path, entry)?;
        add_note(&mut notes, note)?;
    }
    Ok(notes)
}

/// The path of an entry of the sources, if it is a file that has a rule.
fn shadowed_at(
    alloc: Global,
    sources: &Tree,
    path: &Path,
    entry: &Entry,
) -> Result<Option<Path>, AllocError>
    ensures { IfOk result (λ found. found ≡ shadowed_by sources.now (path.now, node_of entry.now)) }
{
    if !matches!(entry, Entry::File(_)) {
        return Ok(None);
    }
    if !has_rule(alloc, sources, path)? {
        return Ok(None);
    }
    Ok(Some(path.clone()?))
}

/// Adds a path, if there is one.
fn add_path(paths: &mut Vec<Path>, path: Option<Path>) -> Result<(), AllocError>
    ensures { OnOk result (paths.new.items ≡ paths.old.items ++ cons_option path []) }
{
    match path {
        Some(path) => {
            paths.push(path)?;
            Ok(())
        }
        None => Ok(()),
    }
}

/// All sources that have a rule, in path order: no build makes them, whoever asks for them.
pub fn shadowed(alloc: Global, past: &Past) -> Result<Vec<Path>, AllocError>
    ensures { IfOk result (λ paths. paths.items ≡ shadowed_in past.now) }
{
    let mut paths = Vec::new(alloc);
    for (path, entry) in past.sources().in_order(alloc)? {
        let found = shadowed_at(alloc, past.sources(), path, entry)?;
        add_path(&mut paths, found)?;
    }
    Ok(paths)
}

/// Whether a path is one of these places, or below one.
fn is_within(path: &Path, places: &[Path]) -> bool
    ensures { result ≡ stands_within places.now path.now }
{
    places.iter().any(|place| path.below(place).is_some())
}

/// The sources that have a rule, at these places and below them, in path order.
pub fn shadowed_within(alloc: Global, past: &Past, places: &[Path]) -> Result<Vec<Path>, AllocError>
    ensures { IfOk result (λ paths. paths.items ≡ shadowed_in_places past.now places.now) }
{
    let all = shadowed(alloc, past)?;
    let mut within = Vec::new(alloc);
    for path in &all {
        if is_within(path, places) {
            within.push(path.clone()?)?;
        }
    }
    Ok(within)
}

/// Whether a row was built without a file, where the tree has one at its path.
fn is_unmade(tree: &Tree, row: &Row) -> bool
    ensures { result ≡ was_unmade tree.now row.now }
{
    matches!(row.outcome, Outcome::Built(None)) && tree.content(&row.path).is_some()
}

/// The targets that were built without a file and whose file of an earlier run stays, in path order.
fn unmade(alloc: Global, past: &Past, report: &Report) -> Result<Vec<Path>, AllocError>
    ensures { IfOk result (λ paths. paths.items ≡ unmade_in past.now report.now) }
{
    let mut paths = Vec::new(alloc);
    for row in &report.rows {
        if is_unmade(past.tree(), row) {
            paths.push(row.path.clone()?)?;
        }
    }
    Ok(paths)
}

/// Whether a record's target has its generated file, and no rule.
fn is_ruleless(alloc: Global, past: &Past, made: &BookRecord) -> Result<bool, AllocError>
    ensures { IfOk result (λ answer. answer ≡ has_no_rule past.now (record_of made.now)) }
{
    if has_rule(alloc, past.sources(), &made.target)? {
        return Ok(false);
    }
    Ok(is_generated(past.tree(), made))
}

/// The targets of the book whose generated file stays and that no rule makes, in path order.
fn ruleless(alloc: Global, past: &Past) -> Result<Vec<Path>, AllocError>
    ensures { IfOk result (λ paths. paths.items ≡ ruleless_in past.now) }
{
    let mut paths = Vec::new(alloc);
    for made in past.book().records() {
        if is_ruleless(alloc, past, made)? {
            paths.push(made.target.clone()?)?;
        }
    }
    Ok(paths)
}

/// What is stale after a build over a past, or soon will be.
pub fn notes(
    alloc: Global,
    past: &Past,
    request: &[Path],
    report: &Report,
) -> Result<Notes, AllocError>
    ensures unbuilt { IfOk result (λ notes. notes.unbuilt.items ≡ unbuilt_in past.now request.now report.now) }
    ensures unmade { IfOk result (λ notes. notes.unmade.items ≡ unmade_in past.now report.now) }
    ensures ruleless { IfOk result (λ notes. notes.ruleless.items ≡ ruleless_in past.now) }
{
    let unbuilt = unbuilt(alloc, past, request, report)?;
    let unmade = unmade(alloc, past, report)?;
    let ruleless = ruleless(alloc, past)?;
    Ok(Notes {
        unbuilt,
        unmade,
        ruleless,
    })
}

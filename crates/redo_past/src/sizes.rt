//! How many bytes the records of the new book have, counted before they are written.

ghost use Rattle.std.specs.Prelude.{◌≡◌, ◌≢◌, ◌∷◌, [], IfOk, codes, flat_map, length, map, option_copied};
ghost use Rattle.std.specs.List.{AllByRecursion};
ghost use Rattle.redo_record.specs.declared.deps.DepKind.TheVariants as kinds;
ghost use Rattle.redo_record.specs.Entries.{change_of, creates};
ghost use Rattle.redo_book.specs.Book.{IsRecord, record_lines, text_of};
ghost use Rattle.redo_past.specs.NewBook.{record_of_row as record_for};
ghost use Rattle.redo_past.specs.inside.Books.{AreSized, IsSound, StatesView, item_text, record_in};

use crate::items::BookItem;
use crate::records::is_top;
use crate::states::{Files, has_made};
use redo_book::{always_size, change_size, create_size, target_size};
use redo_path::Path;
use redo_record::{Dep, DepKind, Record};
use redo_report::Row;
use redo_which::{Missing, MissingLines, add_sizes};
use std::alloc::{AllocError, Global};

/// The size of a `change` of a path.
fn changed_size(files: &Files<'_>, path: &Path) -> usize
    ensures { AreSized files.now (record { kind = kinds.Change; path = path.now } ∷ []) result }
{
    if is_top(path) {
        return 0;
    }
    change_size(files.has_file(path), path)
}

/// The size of a `create` of a path.
fn created_size(path: &Path) -> usize
    ensures { (states : StatesView) → AreSized states (record { kind = kinds.Create; path = path.now } ∷ []) result }
{
    if is_top(path) {
        return 0;
    }
    create_size(path)
}

/// The size of an `always`, which has the top directory as its path.
fn made_again_size(path: &Path) -> usize
    ensures { (states : StatesView) → AreSized states (record { kind = kinds.Always; path = path.now } ∷ []) result }
{
    if is_top(path) {
        return always_size();
    }
    0
}

/// The size of an entry as a book has it.
fn entry_size(files: &Files<'_>, dep: &Dep) -> usize
    ensures { AreSized files.now (dep.now ∷ []) result }
{
    match dep.kind {
        DepKind::Change => changed_size(files, &dep.path),
        DepKind::Create => created_size(&dep.path),
        DepKind::Always => made_again_size(&dep.path),
    }
}

/// The size of what a script declared.
fn own_size(files: &Files<'_>, own: &[Dep]) -> Result<usize, AllocError>
    ensures { IfOk result (AreSized files.now own.now) }
{
    let mut size = 0;
    for dep in own {
        size = add_sizes(size, entry_size(files, dep))?;
    }
    Ok(size)
}

/// The size of the entry of a record's .do file, if it has one.
fn do_file_size(files: &Files<'_>, do_file: Option<&Path>) -> usize
    ensures { AreSized files.now (change_of (option_copied do_file.entry)) result }
{
    match do_file {
        Some(path) => changed_size(files, path),
        None => 0,
    }
}

/// The size of the entries of the missing candidates.
fn candidates_size<'a>(
    lines: &mut MissingLines<'a>,
    missing: &'a Missing,
) -> Result<usize, AllocError>
    requires front { lines.old.0 ≡ codes "create " }
    ensures front { lines.new.0 ≡ lines.old.0 }
    ensures size { IfOk result (λ size. (states : StatesView) → AreSized states (creates missing.now) size) }
{
    missing.each_below();
    lines.size(missing)
}

/// The size of the entries of a record as a book has them.
fn entries_size<'a>(
    files: &Files<'_>,
    lines: &mut MissingLines<'a>,
    deps: &'a Record,
) -> Result<usize, AllocError>
    requires front { lines.old.0 ≡ codes "create " }
    ensures front { lines.new.0 ≡ lines.old.0 }
    ensures size { IfOk result (AreSized files.now deps.now) }
{
    let parts = deps.parts();
    let searched = add_sizes(
        candidates_size(lines, parts.missing)?,
        do_file_size(files, parts.do_file),
    )?;
    add_sizes(searched, own_size(files, parts.own)?)
}

/// The size of the record of a target that was built.
fn built_size<'a>(
    files: &Files<'_>,
    lines: &mut MissingLines<'a>,
    row: &'a Row,
) -> Result<usize, AllocError>
    requires below { row.now.path ≢ [] }
    requires front { lines.old.0 ≡ codes "create " }
    ensures front { lines.new.0 ≡ lines.old.0 }
    ensures size { IfOk result (λ size. size
        ≡ length (text_of (record_lines (record_for files.now.sources files.now.rows row.now)))) }
    ensures record { IfOk result (λ _. IsRecord (record_for files.now.sources files.now.rows row.now)) }
{
    // Both calls show the proof something: the target is a path, and the record has each entry once.
    let _path = row.path.text();
    row.deps.each_once();
    let entries = entries_size(files, lines, &row.deps)?;
    add_sizes(target_size(has_made(&row.outcome), &row.path), entries)
}

/// The size of a record of the new book.
fn item_size<'a>(
    files: &Files<'_>,
    lines: &mut MissingLines<'a>,
    item: &BookItem<'a>,
) -> Result<usize, AllocError>
    requires sound { IsSound item.now }
    requires front { lines.old.0 ≡ codes "create " }
    ensures front { lines.new.0 ≡ lines.old.0 }
    ensures size { IfOk result (λ size. size ≡ length (item_text files.now item.now)) }
    ensures record { IfOk result (λ _. IsRecord (record_in files.now item.now)) }
{
    match item {
        BookItem::Built(row) => built_size(files, lines, row),
        BookItem::Carried(old) => Ok(old.text().len()),
    }
}

/// The size of the records of the new book. A book can have each of them.
pub(crate) fn items_size<'a>(
    alloc: Global,
    files: &Files<'_>,
    items: &[BookItem<'a>],
) -> Result<usize, AllocError>
    requires { AllByRecursion IsSound items.now }
    ensures size { IfOk result (λ size. size ≡ length (flat_map (item_text files.now) items.now)) }
    ensures each { IfOk result (λ _. AllByRecursion IsRecord (map (record_in files.now) items.now)) }
{
    let mut lines = MissingLines::new(alloc, b"create ");
    let mut size = 0;
    for item in items {
        size = add_sizes(size, item_size(files, &mut lines, item)?)?;
    }
    Ok(size)
}

//! The records of the last run that are carried into the new book.

ghost use Rattle.std.specs.Prelude.{◌≡◌, ◌++◌, IfOk, List, OnOk, filter};
ghost use Rattle.std.specs.List.{AllByRecursion};
ghost use Rattle.std.specs.Cmp.Lexicographic.{slice_cmp};
ghost use Rattle.std.specs.List.{prefix_len};
ghost use Rattle.std.specs.List.Sorted.{IsStrictlySortedBy};
ghost use Rattle.std.specs.Ordering.{nat_cmp};
ghost use Rattle.redo_book.specs.Book.{IsRecord, Record, record_of, targets_of};
ghost use Rattle.redo_past.specs.inside.Books.{AreItems, carries, has_built, is_before, is_behind};
ghost use Rattle.redo_past.specs.inside.Books.{states_after};
ghost use Rattle.redo_past.specs.NewBook.{row_at};

use crate::Past;
use crate::items::BookItem;
use crate::old_records::OldRecord;
use crate::records::is_built;
use crate::rows::Rows;
use crate::standing::has_rule;
use redo_book::BookRecord;
use redo_path::Path;
use std::alloc::{AllocError, Global};

/// Whether a path was built.
fn was_built(rows: &Rows<'_>, path: &Path) -> bool
    ensures { result ≡ has_built (row_at rows.now path.now) }
{
    match rows.find(path) {
        Some(row) => is_built(&row.outcome),
        None => false,
    }
}

/// Whether a record is carried into the new book. A target with a rule isn't a source, so a file at its path is the
/// generated one that the record tells of; it isn't digested again.
fn is_carried(
    alloc: Global,
    past: &Past,
    rows: &Rows<'_>,
    record: &BookRecord,
) -> Result<bool, AllocError>
    ensures { IfOk result (λ answer. answer ≡ carries past.now rows.now (record_of «record».now)) }
{
    let target = &record.target;
    if record.state.is_some() != past.tree().file(target).is_some() {
        return Ok(false);
    }
    if was_built(rows, target) {
        return Ok(false);
    }
    has_rule(alloc, past.sources(), target)
}

/// Adds those of these old records that are carried.
pub(crate) fn carry<'a>(
    alloc: Global,
    past: &Past,
    rows: &Rows<'_>,
    records: &[OldRecord<'a>],
    items: &mut Vec<BookItem<'a>>,
) -> Result<(), AllocError>
    requires each { AllByRecursion IsRecord records.now }
    ensures { OnOk result ((known : List Record) → AreItems (states_after past.now rows.now) items.old.items known →
        AreItems (states_after past.now rows.now) items.new.items
        (known ++ filter (carries past.now rows.now) records.now)) }
{
    for old in records {
        if is_carried(alloc, past, rows, old.record())? {
            items.push(BookItem::Carried(old.same()))?;
        }
    }
    Ok(())
}

/// Whether a record's target comes before a path.
fn stands_before(record: &BookRecord, path: &Path) -> bool
    ensures { result ≡ is_before path.now (record_of «record».now) }
{
    record.target < *path
}

/// How many records at the front come before a path.
fn count_before(records: &[OldRecord<'_>], path: &Path) -> usize
    ensures { result ≡ prefix_len (is_before path.now) records.now }
{
    for at in 0..records.len() {
        if !stands_before(records[at].record(), path) {
            return at;
        }
    }
    records.len()
}

/// The records that come before a path, and the others.
pub(crate) fn split_before<'o, 'a>(
    records: &'o [OldRecord<'a>],
    path: &Path,
) -> (&'o [OldRecord<'a>], &'o [OldRecord<'a>])
    requires sorted { IsStrictlySortedBy (slice_cmp nat_cmp) (targets_of records.now) }
    ensures front { result.0.now ≡ filter (is_before path.now) records.now }
    ensures left { result.1.now ≡ filter (is_behind path.now) records.now }
{
    records.split_at(count_before(records, path))
}

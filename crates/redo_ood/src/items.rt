//! What the tree alone tells of each entry of a book.

ghost use Rattle.std.specs.Prelude.{◌≡◌, IfOk, false, true};
ghost use Rattle.redo_tree.specs.Tree.{file_at};
ghost use Rattle.redo_which.specs.Candidates.{is_do_file};
ghost use Rattle.redo_which.specs.Rule.{found_of, is_rule};
ghost use Rattle.redo_book.specs.declared.book.BookEntry.TheVariants.{Change};
ghost use Rattle.redo_ood.specs.inside.Items.{item_if};
ghost use Rattle.redo_ood.specs.inside.Rows.{AreItems, AreRows, InRun, IsItem};

use crate::verdicts::{Row, RowItem};
use redo_book::{BookEntry, BookRecord};
use redo_digest::Digest;
use redo_names::PathSet;
use redo_past::{Past, has_rule, has_state, is_free};
use redo_path::Path;
use std::alloc::{AllocError, Global};

fn holds_if(holds: bool) -> RowItem
    ensures { result ≡ item_if holds }
{
    if holds {
        RowItem::Holds
    } else {
        RowItem::Drops
    }
}

/// A `change` of a target with a rule. Its script is begun unless it is in check: it isn't requested, and is as the
/// previous run left it.
fn target_item(past: &Past, requested: &PathSet, state: &Option<Digest>, path: &Path) -> RowItem
    requires source { file_at past.now.sources path.now ≡ None }
    requires script { is_do_file path.now ≡ false }
    requires rule { is_rule (found_of past.now.sources path.now) ≡ true }
    ensures { InRun past.now requested.now (λ s k book. IsItem s k book (Change state.now path.now) result) }
{
    if requested.contains(path) {
        return RowItem::Unsure;
    }
    match past.intact(path) {
        Some(number) => RowItem::On(number, has_state(past.tree().content(path), state)),
        None => RowItem::Unsure,
    }
}

/// A `change` of a path that is no source. One without a rule fails.
fn asked_item(
    alloc: Global,
    past: &Past,
    requested: &PathSet,
    state: &Option<Digest>,
    path: &Path,
) -> Result<RowItem, AllocError>
    requires { file_at past.now.sources path.now ≡ None }
    ensures { IfOk result (λ item.
        InRun past.now requested.now (λ s k book. IsItem s k book (Change state.now path.now) item)) }
{
    if path.name().ends_with(b".do") {
        return Ok(RowItem::Drops);
    }
    if has_rule(alloc, past.sources(), path)? {
        Ok(target_item(past, requested, state, path))
    } else {
        Ok(RowItem::Drops)
    }
}

/// The item of an entry in a run that requests these paths.
fn item_of(
    alloc: Global,
    past: &Past,
    requested: &PathSet,
    entry: &BookEntry,
) -> Result<RowItem, AllocError>
    ensures { IfOk result (λ item. InRun past.now requested.now (λ s k book. IsItem s k book entry.now item)) }
{
    match entry {
        BookEntry::Change(state, path) => match past.sources().content(path) {
            Some(content) => Ok(holds_if(has_state(Some(content), state))),
            None => Ok(asked_item(alloc, past, requested, state, path)?),
        },
        BookEntry::Create(path) => Ok(holds_if(is_free(alloc, past.sources(), path)?)),
        BookEntry::Always => Ok(RowItem::Drops),
    }
}

/// The items of a record.
fn items_of(
    alloc: Global,
    past: &Past,
    requested: &PathSet,
    entries: &[BookEntry],
) -> Result<Row, AllocError>
    ensures { IfOk result (λ row.
        InRun past.now requested.now (λ s k book. AreItems s k book entries.now row.items.items)) }
{
    let mut items = Vec::with_capacity(alloc, entries.len())?;
    for entry in entries {
        items.push(item_of(alloc, past, requested, entry)?)?;
    }
    Ok(Row { items })
}

/// The rows of the book, in a run that requests these paths.
pub(crate) fn rows_of(
    alloc: Global,
    past: &Past,
    requested: &PathSet,
) -> Result<Vec<Row>, AllocError>
    ensures { IfOk result (λ rows. InRun past.now requested.now (λ s k book. AreRows s k book book rows.items)) }
{
    let mut rows = Vec::new(alloc);
    for made in past.book().records() {
        rows.push(items_of(alloc, past, requested, &made.entries)?)?;
    }
    Ok(rows)
}

//! What the records of the new book are made of, in its order. No record is made.

ghost use Rattle.std.specs.Prelude.{◌≡◌, Bool, IfOk, List, false};
ghost use Rattle.redo_book.specs.Book.{IsBook, Record};
ghost use Rattle.redo_past.specs.inside.Books.{AreItems, joined, new_records, states_after};

use crate::Past;
use crate::carrying::{carry, split_before};
use crate::old_records::{OldRecord, records_of};
use crate::records::has_record;
use crate::rows::Rows;
use redo_path::Path;
use redo_report::Row;
use std::alloc::{AllocError, Global};

/// What a record of the new book is made of: the row of a target that was built, or a record of the last run that is
/// carried, with its text.
#[derive(Drop)]
pub(crate) enum BookItem<'a> {
    Built(&'a Row),
    Carried(OldRecord<'a>),
}

/// These old records without the first, if that is this target's. A target that was built has a new record.
fn but_of<'o, 'a>(records: &'o [OldRecord<'a>], target: &Path) -> &'o [OldRecord<'a>]
    ensures joined { (keeps : Record → Bool) → ((r : Record) → r.target ≡ target.now → keeps r ≡ false) →
        (built : List Record) → joined keeps built result.now ≡ joined keeps built records.now }
    ensures book { IsBook records.now → IsBook result.now }
{
    if let Some((first, rest)) = records.split_first() {
        if first.record().target == *target {
            return rest;
        }
    }
    records
}

/// What the records of the new book are made of.
pub(crate) fn items_of<'a>(
    alloc: Global,
    past: &'a Past,
    rows: &Rows<'a>,
) -> Result<Vec<BookItem<'a>>, AllocError>
    ensures { IfOk result (λ items.
        AreItems (states_after past.now rows.now) items.items (new_records past.now rows.now)) }
{
    let mut items = Vec::new(alloc);
    let old = records_of(alloc, past)?;
    let mut left = old.as_slice();
    let in_order = rows.in_order();
    for row in in_order {
        if has_record(row) {
            let (front, behind) = split_before(left, &row.path);
            carry(alloc, past, rows, front, &mut items)?;
            left = but_of(behind, &row.path);
            items.push(BookItem::Built(row))?;
        }
    }
    carry(alloc, past, rows, left, &mut items)?;
    Ok(items)
}

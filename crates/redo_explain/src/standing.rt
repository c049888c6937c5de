//! Whether recorded entries stand, by the sources and by what a report tells.

ghost use Rattle.std.specs.Prelude.{◌≡◌, IfOk, option_copied};
ghost use Rattle.redo_skip.specs.Checks.{has_state as is_of_state, standing, stands_if, told};
ghost use Rattle.redo_why.specs.Reasons.{first_fallen as first_to_fall};
ghost use Rattle.redo_explain.specs.inside.Told.{AreRows, sources_in, told_by};

use crate::outcomes::outcome_of;
use redo_book::BookEntry;
use redo_digest::Digest;
use redo_past::Past;
use redo_path::Path;
use redo_report::Row;
use redo_rules::{Alone, is_as_recorded, standing_alone};
use std::alloc::{AllocError, Global};

/// Whether the outcome that a report tells of a path has this state; a path without a row has none.
fn is_told_as_recorded(rows: &[Row], state: &Option<Digest>, path: &Path) -> bool
    ensures { AreRows rows.now → result ≡ is_of_state state.now (told (told_by rows.now path.now)) }
{
    match outcome_of(rows, path) {
        Some(outcome) => is_as_recorded(outcome, state),
        None => false,
    }
}

/// Whether an entry stands.
fn stands(alloc: Global, past: &Past, rows: &[Row], entry: &BookEntry) -> Result<bool, AllocError>
    ensures { IfOk result (λ stands. AreRows rows.now →
        stands_if stands ≡ standing (sources_in past.now) (told_by rows.now) entry.now) }
{
    match standing_alone(alloc, past.sources(), entry)? {
        Alone::Stands => Ok(true),
        Alone::Falls => Ok(false),
        Alone::Asks => match entry {
            BookEntry::Change(state, path) => Ok(is_told_as_recorded(rows, state, path)),
            BookEntry::Create(_) | BookEntry::Always => Ok(false),
        },
    }
}

/// The first of these entries that falls, if one does.
pub(crate) fn first_fallen<'a>(
    alloc: Global,
    past: &Past,
    rows: &[Row],
    entries: &'a [BookEntry],
) -> Result<Option<&'a BookEntry>, AllocError>
    ensures { IfOk result (λ entry. AreRows rows.now →
        option_copied entry ≡ first_to_fall (sources_in past.now) (told_by rows.now) entries.now) }
{
    for entry in entries {
        if !stands(alloc, past, rows, entry)? {
            return Ok(Some(entry));
        }
    }
    Ok(None)
}

//! What is told of a record.

ghost use Rattle.std.specs.Prelude.{◌≡◌, IfOk, length, not, option_copied, option_map};
ghost use Rattle.redo_book.specs.Book.{record_of};
ghost use Rattle.redo_ood.specs.inside.Lines.{drop_in, drops, holds, mark_as, mark_in, open_as, open_in};
ghost use Rattle.redo_ood.specs.inside.Lines.{told_in, told_of, word_as};
ghost use Rattle.redo_ood.specs.inside.Verdicts.{in_table};

use crate::verdicts::{RowItem, Verdict, verdict_at};
use redo_book::{BookEntry, BookRecord};
use redo_past::{Past, has_rule, is_intact};
use std::alloc::{AllocError, Global};

/// What is told of the target of a record.
#[derive(Clone, Copy)]
pub(crate) enum Word<'a> {
    /// Its file is gone.
    Altered,
    /// This entry isn't so any more.
    Fallen(&'a BookEntry),
    /// This entry names a target whose script is begun, or may be.
    Maybe(&'a BookEntry),
    /// This entry names a target that waits for itself or a ring.
    Ring(&'a BookEntry),
    /// It has no rule any more.
    Lost,
}

/// What is known of an entry.
#[derive(Clone, Copy)]
enum Mark {
    /// It is still so when its target is checked.
    Holds,
    /// It isn't so any more.
    Drops,
    /// It names a target whose script is begun, or may be.
    Unsure,
    /// It names a target without a verdict.
    Waits,
}

/// An entry that isn't known to hold.
#[derive(Clone, Copy)]
struct Open<'a> {
    entry: &'a BookEntry,
    mark: Mark,
}

/// What is known of an entry, by the verdicts.
fn mark_of(item: RowItem, table: &[Option<Verdict>]) -> Mark
    ensures { mark_as result ≡ mark_in (in_table table.now) item }
{
    match item {
        RowItem::Holds => Mark::Holds,
        RowItem::Drops => Mark::Drops,
        RowItem::Unsure => Mark::Unsure,
        RowItem::On(number, same) => match verdict_at(table, number) {
            None => Mark::Waits,
            Some(Verdict::Keeps) if same => Mark::Holds,
            Some(Verdict::Keeps) => Mark::Drops,
            Some(Verdict::Begins | Verdict::Either) => Mark::Unsure,
        },
    }
}

fn is_open(mark: Mark) -> bool
    ensures { result ≡ not (holds (mark_as mark)) }
{
    !matches!(mark, Mark::Holds)
}

fn is_dropped(mark: Mark) -> bool
    ensures { result ≡ drops (mark_as mark) }
{
    matches!(mark, Mark::Drops)
}

/// The first entry that isn't known to hold.
fn first_open<'a>(
    entries: &'a [BookEntry],
    items: &[RowItem],
    table: &[Option<Verdict>],
) -> Option<Open<'a>>
    requires { length entries.now ≡ length items.now }
    ensures { option_map open_as result ≡ open_in (in_table table.now) entries.entry.now items.now }
{
    for at in 0..entries.len() {
        let mark = mark_of(items[at], table);
        if is_open(mark) {
            let entry = &entries[at];
            return Some(Open { entry, mark });
        }
    }
    None
}

/// The first entry that isn't so any more, even if an unsure one comes before it.
fn first_drop<'a>(
    entries: &'a [BookEntry],
    items: &[RowItem],
    table: &[Option<Verdict>],
) -> Option<&'a BookEntry>
    requires { length entries.now ≡ length items.now }
    ensures { option_copied result ≡ drop_in (in_table table.now) entries.entry.now items.now }
{
    for at in 0..entries.len() {
        if is_dropped(mark_of(items[at], table)) {
            return Some(&entries[at]);
        }
    }
    None
}

/// What the entries of a record tell of a target with a rule that is as the previous run left it.
fn word_by<'a>(
    entries: &'a [BookEntry],
    items: &[RowItem],
    table: &[Option<Verdict>],
) -> Option<Word<'a>>
    requires { length entries.now ≡ length items.now }
    ensures { option_map word_as result ≡ told_in (in_table table.now) entries.entry.now items.now }
{
    let Open { entry, mark } = first_open(entries, items, table)?;
    match mark {
        Mark::Holds => None,
        Mark::Drops => Some(Word::Fallen(entry)),
        Mark::Waits => Some(Word::Ring(entry)),
        Mark::Unsure => match first_drop(entries, items, table) {
            Some(drop) => Some(Word::Fallen(drop)),
            None => Some(Word::Maybe(entry)),
        },
    }
}

/// What is told of the target of a record, by its items and the verdicts; `None` if nothing is.
pub(crate) fn word_of<'a>(
    alloc: Global,
    past: &Past,
    made: &'a BookRecord,
    items: &[RowItem],
    table: &[Option<Verdict>],
) -> Result<Option<Word<'a>>, AllocError>
    requires { length made.now.entries.items ≡ length items.now }
    ensures { IfOk result (λ word.
        option_map word_as word ≡ told_of past.now (in_table table.now) (record_of made.entry.now) items.now) }
{
    if past.sources().content(&made.target).is_some() {
        return Ok(None);
    }
    if !has_rule(alloc, past.sources(), &made.target)? {
        return Ok(Some(Word::Lost));
    }
    if !is_intact(past.tree(), made) {
        return Ok(Some(Word::Altered));
    }
    Ok(word_by(&made.entries, items, table))
}

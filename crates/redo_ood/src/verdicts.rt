//! What is known of each record of a book before any script runs: its target is kept, is begun, or may be either.
//!
//! Records have numbers, and what the tree alone tells of their entries is known ([`RowItem`]). So it only remains to
//! go from record to record. A record gets its verdict once those that it waits for have theirs; one without a
//! verdict at the end is on a cycle, or waits for one.
//!
//! First a walk gives each record its verdict after those that it waits for, with a stack of its own, in linear time.
//! Then rounds go over all records until one finds nothing more to do: it shows that none was missed. After the walk,
//! the first round does. Each verdict that is written follows from those in the table, and that is all that the
//! proofs have to know of the walk: a wrong one would be slow and still right.

ghost use Rattle.std.specs.Prelude.{◌≡◌, ℕ, ◌<◌, true, false, Option, Some, None, length};
ghost use Rattle.std.specs.Prelude.{IfOk, OnOk, unwrap_or};
ghost use Rattle.redo_ood.specs.declared.verdicts.Verdict.{Verdict as VerdictView};
ghost use Rattle.redo_ood.specs.inside.Verdicts.{in_table, of_items as verdict_of_items, by_item, AreVerdicts, IsSound, IsFixedAt};
ghost use Rattle.redo_ood.specs.inside.Verdicts.{known_count};

use std::alloc::{AllocError, Global};

/// How a recorded entry stands before any script runs.
#[derive(Clone, Copy, Debug, PartialEq, Eq)]
pub(crate) enum RowItem {
    /// It is still so.
    Holds,
    /// It isn't so any more.
    Drops,
    /// It names a target whose script is begun.
    Unsure,
    /// It names the target of the record with this number. If that one is kept, the entry is still so exactly where
    /// this is true: its file has the recorded state.
    On(usize, bool),
}

/// What is known of a target in check.
#[derive(Clone, Copy, Debug, PartialEq, Eq)]
pub(crate) enum Verdict {
    /// All its entries are still so.
    Keeps,
    /// The first entry that isn't known to be still so isn't so any more.
    Begins,
    /// That entry names a target whose script is begun, or may be.
    Either,
}

/// The items of a record.
#[derive(Drop)]
pub(crate) struct Row {
    pub(crate) items: Vec<RowItem>,
}

/// The verdict of a record in a table.
pub(crate) fn verdict_at(table: &[Option<Verdict>], number: usize) -> Option<Verdict>
    ensures { result ≡ in_table table.now number }
{
    match table.get(number) {
        Some(verdict) => *verdict,
        None => None,
    }
}

/// The verdict that an item leads to; none where it holds.
fn ends(item: RowItem, table: &[Option<Verdict>]) -> Option<Option<Verdict>>
    ensures { (rest : Option VerdictView) → by_item (in_table table.now) item rest ≡ unwrap_or result rest }
{
    match item {
        RowItem::Holds => None,
        RowItem::Drops => Some(Some(Verdict::Begins)),
        RowItem::Unsure => Some(Some(Verdict::Either)),
        RowItem::On(number, same) => match verdict_at(table, number) {
            None => Some(None),
            Some(Verdict::Keeps) if same => None,
            Some(Verdict::Keeps) => Some(Some(Verdict::Begins)),
            Some(Verdict::Begins | Verdict::Either) => Some(Some(Verdict::Either)),
        },
    }
}

/// The verdict of a record with these items, by those of other records so far.
pub(crate) fn of_items(items: &[RowItem], table: &[Option<Verdict>]) -> Option<Verdict>
    ensures { result ≡ verdict_of_items (in_table table.now) items.now }
{
    for item in items {
        if let Some(verdict) = ends(*item, table) {
            return verdict;
        }
    }
    Some(Verdict::Keeps)
}

/// Gives a record its verdict, where it has none and one follows from those in the table; whether it did.
fn step(book: &[Row], table: &mut [Option<Verdict>], number: usize) -> bool
    requires within { number < length book.now }
    requires sound { IsSound book.now table.old }
    ensures sound { IsSound book.now table.new }
    ensures more { result ≡ true → known_count table.old < known_count table.new }
    ensures same { result ≡ false → table.new ≡ table.old }
    ensures fixed { result ≡ false → IsFixedAt book.now (in_table table.new) number }
{
    if verdict_at(table, number).is_some() {
        return false;
    }
    let verdict = of_items(&book[number].items, table);
    if verdict.is_none() {
        return false;
    }
    table[number] = verdict;
    true
}

/// Gives each record its verdict that has none, where one follows; whether there was one.
fn round(book: &[Row], table: &mut [Option<Verdict>]) -> bool
    requires { IsSound book.now table.old }
    ensures sound { IsSound book.now table.new }
    ensures more { result ≡ true → known_count table.old < known_count table.new }
    ensures fixed { result ≡ false → (i : ℕ) → IsFixedAt book.now (in_table table.new) i }
{
    let mut changed = false;
    for number in 0..book.len() {
        if step(book, table, number) {
            changed = true;
        }
    }
    changed
}

/// A table without verdicts.
fn empty_table(alloc: Global, count: usize) -> Result<Vec<Option<Verdict>>, AllocError>
    ensures size { IfOk result (λ table. length table.items ≡ count) }
    ensures empty { IfOk result (λ table. (i : ℕ) → in_table table.items i ≡ None) }
{
    let mut table = Vec::with_capacity(alloc, count)?;
    for _number in 0..count {
        table.push(None)?;
    }
    Ok(table)
}

/// Whether a record is passed over: it was seen, or is none.
fn is_seen(seen: &[bool], number: usize) -> bool {
    match seen.get(number) {
        Some(seen) => *seen,
        None => true,
    }
}

/// Notes that a record was seen.
fn see(seen: &mut [bool], number: usize) {
    if let Some(here) = seen.get_mut(number) {
        *here = true;
    }
}

/// Finds the next unseen record without a verdict that a record waits for, from a place among its items on. Returns
/// the item's place, and that record's number. None if the verdict follows from those in the table, or the record
/// waits for one that was seen.
fn next_waiting(
    book: &[Row],
    table: &[Option<Verdict>],
    seen: &[bool],
    number: usize,
    from: usize,
) -> Option<(usize, usize)> {
    let row = book.get(number)?;
    for place in from..row.items.len() {
        let item = row.items[place];
        if let Some(verdict) = ends(item, table) {
            return match item {
                RowItem::On(child, _) if verdict.is_none() && !is_seen(seen, child) => {
                    Some((place, child))
                }
                _ => None,
            };
        }
    }
    None
}

/// Gives records their verdicts, each after those that it waits for, with a stack of its own.
fn walk(alloc: Global, book: &[Row], table: &mut [Option<Verdict>]) -> Result<(), AllocError>
    requires { IsSound book.now table.old }
    ensures { OnOk result (IsSound book.now table.new) }
{
    let mut seen = vec![in alloc; false; book.len()]?;
    let mut stack: Vec<(usize, usize)> = Vec::new(alloc);
    for root in 0..book.len() {
        if is_seen(&seen, root) {
            continue;
        }
        see(&mut seen, root);
        stack.push((root, 0))?;
        for _turn in 0..u64::MAX {
            let Some((number, from)) = stack.pop() else {
                break;
            };
            if let Some((place, child)) = next_waiting(book, table, &seen, number, from) {
                see(&mut seen, child);
                stack.push((number, place))?;
                stack.push((child, 0))?;
            } else if number < book.len() {
                step(book, table, number);
            }
        }
    }
    Ok(())
}

/// The verdicts of a book.
pub(crate) fn verdicts(alloc: Global, book: &[Row]) -> Result<Vec<Option<Verdict>>, AllocError>
    ensures { IfOk result (λ table. AreVerdicts book.now table.items) }
{
    let mut table = empty_table(alloc, book.len())?;
    walk(alloc, book, &mut table)?;
    // The walk has left nothing to do, which the first round shows.
    for _round in 0..book.len() {
        if !round(book, &mut table) {
            return Ok(table);
        }
    }
    Ok(table)
}

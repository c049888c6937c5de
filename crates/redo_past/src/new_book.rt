//! The text of the new book. Its records are never in memory together.

ghost use Rattle.std.specs.Prelude.{◌≡◌, IfOk, false, is_err, length, map};
ghost use Rattle.std.specs.List.{AllByRecursion};
ghost use Rattle.redo_bundle.specs.Bundle.{Writes};
ghost use Rattle.redo_book.specs.Book.{IsRecord, book_lines, text_of};
ghost use Rattle.redo_past.specs.inside.Books.{AreItems, new_records, new_text as text_for, record_in};
ghost use Rattle.redo_past.specs.inside.Books.{states_after};

use crate::Past;
use crate::items::{BookItem, items_of};
use crate::named::named_after;
use crate::records::write_items;
use crate::rows::Rows;
use crate::sizes::items_size;
use crate::states::{Files, States};
use redo_book::write_end;
use redo_bundle::{Broken, ByteOut, Plain};
use redo_which::{MissingLines, add_sizes};
use std::alloc::{AllocError, Global};

/// How many bytes the text of the new book has. A book can have each of its records.
pub(crate) fn text_size<'a>(
    alloc: Global,
    past: &'a Past,
    rows: Rows<'a>,
) -> Result<usize, AllocError>
    ensures size { IfOk result (λ size. size ≡ length (text_for past.now rows.entry)) }
    ensures each { IfOk result (λ _. AllByRecursion IsRecord (new_records past.now rows.entry)) }
{
    let items = items_of(alloc, past, &rows)?;
    let sources = past.sources();
    let files = Files::new(sources, rows);
    let size = items_size(alloc, &files, &items)?;
    add_sizes(size, b"end\n".len())
}

/// What the text of the new book is written from: the state of each path, and what the records are made of.
pub(crate) fn parts_of<'a>(
    alloc: Global,
    past: &'a Past,
    rows: Rows<'a>,
) -> Result<(States<'a>, Vec<BookItem<'a>>), AllocError>
    ensures states { IfOk result (λ parts. parts.0 ≡ states_after past.now rows.entry) }
    ensures items { IfOk result (λ parts.
        AreItems (states_after past.now rows.entry) parts.1.items (new_records past.now rows.entry)) }
{
    let items = items_of(alloc, past, &rows)?;
    let sources = past.sources();
    let in_order = rows.in_order();
    let mut states = States::new(alloc, sources, rows)?;
    // If the old book has records, most digests were made when it was read.
    if past.book().records().is_empty() {
        let named = named_after(alloc, sources, in_order)?;
        states.prepare(&named);
    }
    Ok((states, items))
}

/// Writes the text of the new book. Memory only makes it faster.
pub(crate) fn write_text<W: ByteOut>(
    out: &mut W,
    alloc: Global,
    states: &mut States<'_>,
    items: &[BookItem<'_>],
) -> Result<(), Broken>
    requires { W.has_failed out.old ≡ false }
    ensures writes { Writes (W.held out.old) (W.held out.new) result
        (text_of (book_lines (map (record_in states.old) items.now))) }
    ensures failed { W.has_failed out.new ≡ is_err result }
{
    write_items(out, states, MissingLines::new(alloc, b"create "), items)?;
    write_end(out)
}

/// The text of the new book. Room for `size` bytes is reserved for it.
pub(crate) fn new_text(
    alloc: Global,
    past: &Past,
    rows: Rows<'_>,
    size: usize,
) -> Result<Vec<u8>, AllocError>
    ensures { IfOk result (λ text. text.items ≡ text_for past.now rows.entry) }
{
    let (mut states, items) = parts_of(alloc, past, rows)?;
    let mut out = Plain::new(Vec::with_capacity(alloc, size)?);
    match write_text(&mut out, alloc, &mut states, &items) {
        Ok(()) => {
            let Plain { stream, broken: _ } = out;
            Ok(stream)
        }
        Err(Broken) => Err(AllocError),
    }
}

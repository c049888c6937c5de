//! The records of the last run, with their texts. The text of each is a part of the old book's, so a record that is
//! carried into the new book needn't be written line by line.

ghost use Rattle.std.specs.Prelude.{◌≡◌, ◌++◌, IfOk, flat_map};
ghost use Rattle.redo_book.specs.Book.{IsBook, record_of};
ghost use Rattle.redo_past.specs.inside.Books.{BeginsWith, record_text};

use crate::Past;
use redo_book::{BookRecord, record_size};
use redo_which::BOOK;
use std::alloc::{AllocError, Global};
use std::marker::Model;

/// A record of the last run, with its text. In a contract it is the record.
#[derive(Drop)]
pub(crate) struct OldRecord<'a> {
    record: &'a BookRecord,
    text: &'a [u8],
}

impl<'a> Model for OldRecord<'a> {
    ghost use Rattle.std.specs.Prelude.{◌≡◌};
    ghost use Rattle.redo_book.specs.Book.{Record, record_lines, record_of, text_of};

    ghost Value = { Record };

    ghost view = { λ o. record_of o.«record».now };

    ghost invariant = { λ o. o.text.now ≡ text_of (record_lines (record_of o.«record».now)) };
}

impl<'a> OldRecord<'a> {
    /// The record.
    pub(crate) fn record(&self) -> &'a BookRecord
        ensures { record_of result.now ≡ self.now }
    {
        self.record
    }

    /// Its text.
    pub(crate) fn text(&self) -> &'a [u8]
        ensures { result.now ≡ record_text self.now }
    {
        self.text
    }

    /// The same record again. No text is copied.
    pub(crate) fn same(&self) -> OldRecord<'a>
        ensures { result ≡ self.now }
    {
        OldRecord {
            record: self.record,
            text: self.text,
        }
    }
}

/// A record with its text, which stands at the front of this one, and what follows it.
fn cut_first<'a>(
    text: &'a [u8],
    record: &'a BookRecord,
) -> Result<(OldRecord<'a>, &'a [u8]), AllocError>
    requires { BeginsWith text.now (record_text (record_of «record».now)) }
    ensures first { IfOk result (λ parts. parts.0 ≡ record_of «record».now) }
    ensures rest { IfOk result (λ parts. text.now ≡ record_text (record_of «record».now) ++ parts.1.now) }
{
    let size = record_size(record)?;
    let (text, rest) = text.split_at(size);
    Ok((OldRecord { record, text }, rest))
}

/// The text of the old book. It is empty if the tree has none.
fn book_text(past: &Past) -> &[u8]
    ensures { BeginsWith result.now (flat_map record_text past.now.book) }
{
    match past.tree().file_by_text(BOOK) {
        Some(text) => text,
        None => b"",
    }
}

/// The records of the last run, with their texts.
pub(crate) fn records_of(alloc: Global, past: &Past) -> Result<Vec<OldRecord<'_>>, AllocError>
    ensures records { IfOk result (λ old. old.items ≡ past.now.book) }
    ensures book { IfOk result (λ old. IsBook old.items) }
{
    let records = past.book().records();
    let mut old = Vec::with_capacity(alloc, records.len())?;
    let mut rest = book_text(past);
    for record in records {
        let (first, behind) = cut_first(rest, record)?;
        old.push(first)?;
        rest = behind;
    }
    Ok(old)
}

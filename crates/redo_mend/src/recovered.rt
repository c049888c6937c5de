//! The book that is put together of the old one and the journal, and its text.

ghost use Rattle.std.specs.Prelude.{◌≡◌, ◌∷◌, IfOk, List, OnOk, false, is_err, map, ℕ};
ghost use Rattle.std.specs.Option.{option_or};
ghost use Rattle.redo_bundle.specs.Bundle.{Writes};
ghost use Rattle.redo_book.specs.Book.{IsBook, Record, book_lines, record_of, text_of};
ghost use Rattle.redo_which.specs.Candidates.{journal_path};
ghost use Rattle.redo_mend.specs.Recovered.{IsRecovered, said_at, standing_by};
ghost use Rattle.redo_mend.specs.inside.Found.{AreFound, found_at};

use redo_book::{Book, BookRecord, write_end, write_record};
use redo_bundle::{Broken, ByteOut, Plain};
use redo_dir::journal_path as journal_of;
use redo_past::{is_generated, is_intact};
use redo_path::Path;
use redo_tree::Tree;
use std::alloc::{AllocError, Global};
use std::collections::BTreeMap;

/// Records by the paths of their targets.
type RecordsByPath<'a> = BTreeMap<&'a Path, &'a BookRecord>;

/// Puts those records of a book in their places of which the file is as they say.
fn put_said<'a>(
    tree: &Tree,
    records: &'a [BookRecord],
    found: &mut RecordsByPath<'a>,
) -> Result<(), AllocError>
    requires book { IsBook (map record_of records.now) }
    requires found { AreFound (map (λ e. (e.0.now, record_of e.1.now)) found.old.entries) }
    ensures found { OnOk result (AreFound (map (λ e. (e.0.now, record_of e.1.now)) found.new.entries)) }
    ensures said { OnOk result ((p : List ℕ) →
        found_at (map (λ e. (e.0.now, record_of e.1.now)) found.new.entries) p ≡
        option_or (said_at tree.now (map record_of records.now) p)
        (found_at (map (λ e. (e.0.now, record_of e.1.now)) found.old.entries) p)) }
{
    for made in records {
        if is_intact(tree, made) {
            found.insert(&made.target, made)?;
        }
    }
    Ok(())
}

/// The records of the recovered book, in its order.
fn recovered_records<'a>(
    alloc: Global,
    tree: &Tree,
    journal: &'a Book,
    old: &'a Book,
) -> Result<Vec<&'a BookRecord>, AllocError>
    ensures { IfOk result (λ records.
        IsRecovered tree.now journal.now old.now (map (λ r. record_of r.now) records.items)) }
{
    let mut found = BTreeMap::new(alloc);
    put_said(tree, old.records(), &mut found)?;
    put_said(tree, journal.records(), &mut found)?;
    found.values().copied().collect(alloc)
}

/// Writes the text of a book of these records.
fn write_book<W: ByteOut>(out: &mut W, records: &[&BookRecord]) -> Result<(), Broken>
    requires { W.has_failed out.old ≡ false }
    ensures writes { Writes (W.held out.old) (W.held out.new) result
        (text_of (book_lines (map (λ r. record_of r.now) records.now))) }
    ensures failed { W.has_failed out.new ≡ is_err result }
{
    for made in records {
        write_record(out, made)?;
    }
    write_end(out)
}

/// The journal, and the files that stand as it tells, in its order.
pub(crate) fn to_settle(alloc: Global, tree: &Tree, journal: &Book) -> Result<Vec<Path>, AllocError>
    ensures { IfOk result (λ paths. paths.items ≡ journal_path ∷ standing_by tree.now journal.now) }
{
    let mut paths = Vec::new(alloc);
    paths.push(journal_of(alloc)?)?;
    for made in journal.records() {
        if is_generated(tree, made) {
            paths.push(made.target.clone()?)?;
        }
    }
    Ok(paths)
}

/// The text of the book that is recovered of a tree, a journal and an old book.
pub(crate) fn recovered_text(
    alloc: Global,
    tree: &Tree,
    journal: &Book,
    old: &Book,
) -> Result<Vec<u8>, AllocError>
    ensures { IfOk result (λ text. (book : List Record) × IsRecovered tree.now journal.now old.now book ×
        (text.items ≡ text_of (book_lines book))) }
{
    let records = recovered_records(alloc, tree, journal, old)?;
    let mut out = Plain::new(Vec::new(alloc));
    match write_book(&mut out, &records) {
        Ok(()) => {
            let Plain { stream, broken: _ } = out;
            Ok(stream)
        }
        Err(Broken) => Err(AllocError),
    }
}

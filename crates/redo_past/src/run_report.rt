//! The report of a run, with the book that it leaves.

ghost use Rattle.std.specs.Prelude.{◌≡◌, ◌≤◌, ◌↔◌, IfOk, IsErrOf, List, ℕ, false, is_err, length, map, true};
ghost use Rattle.redo_bundle.specs.Bundle.{Writes};
ghost use Rattle.redo_report.specs.ReportText.{file_text, report_text};
ghost use Rattle.redo_book.specs.Book.{book_lines, text_of};
ghost use Rattle.redo_which.specs.Candidates.{book_path as path_of_book};
ghost use Rattle.redo_past.specs.NewBook.{IsWithBook};
ghost use Rattle.redo_past.specs.inside.Books.{IsRunReport, record_in, text_with_book, with_new_book};

use crate::Past;
use crate::items::BookItem;
use crate::named::{LONG, long_bytes, named_after};
use crate::new_book::{new_text, parts_of, write_text};
use crate::place::book_path;
use crate::rows::Rows;
use crate::states::States;
use redo_bundle::{Broken, ByteOut, WriteFault, write_all};
use redo_names::PathSet;
use redo_report::{Report, Row, write_end, write_file_head, write_files, write_head};
use redo_tree::Content;
use redo_which::BOOK;
use std::alloc::{AllocError, Global};
use std::marker::Model;
use std::thread::Threads;

/// From so many bytes on, in long sources, digests are worth threads.
const WORTH_THREADS: usize = 1 << 20;

/// The file of the new book, which isn't among those of the report.
#[derive(Clone, Copy)]
pub(crate) struct BookFile {
    /// The index at which it goes among them in path order.
    pub(crate) at: usize,
    /// How many bytes its text has.
    pub(crate) size: usize,
}

/// A report without the new book, and the book.
#[derive(Drop)]
pub struct ReportParts {
    pub report: Report,
    /// The text of the new book.
    pub book: Content,
}

/// The report of a run with the new book among its files. The book may be long, so its text is made only as it is
/// written. In a contract it is the report with that text.
#[derive(Drop)]
pub struct RunReport {
    past: Past,
    /// The report without the book, for which its files have room.
    report: Report,
    /// The paths of its rows, each with the index of its row as its number.
    numbers: PathSet,
    book: BookFile,
}

impl Model for RunReport {
    ghost use Rattle.redo_report.specs.declared.report.Report.{Report};
    ghost use Rattle.redo_past.specs.inside.Books.{IsRunReport, with_new_book};

    ghost Value = { Report };

    ghost view = { λ r. with_new_book r.past r.report r.book.at };

    ghost invariant = { λ r. IsRunReport r.past r.report r.numbers r.book.at r.book.size };
}

impl RunReport {
    /// The report of a run over a past. `numbers` has the paths of the rows, each with the index of its row as its
    /// number.
    pub(crate) fn new(past: Past, report: Report, numbers: PathSet, book: BookFile) -> RunReport
        requires { IsRunReport past report numbers book.at book.size }
        ensures { result ≡ with_new_book past report book.at }
    {
        RunReport {
            past,
            report,
            numbers,
            book,
        }
    }

    /// The needed targets and the requested sources, in path order.
    pub fn rows(&self) -> &[Row]
        ensures { result.now ≡ self.now.rows.items }
    {
        &self.report.rows
    }

    /// The same report, after at most `threads` threads have made the digests of the sources that the new book tells
    /// of, if many of these are long. Without this call they are made as the book is written. If the old book has
    /// records, most of them were made when it was read, so none is made here.
    pub fn with_digests_by<R: Threads + Sync>(
        self,
        rt: &R,
        alloc: Global,
        threads: usize,
    ) -> Result<RunReport, AllocError>
        ensures { IfOk result (λ report. report ≡ self) }
    {
        if threads <= 1 || !self.past.book().records().is_empty() {
            return Ok(self);
        }
        let sources = self.past.sources();
        if !sources.has_file_of(LONG) || long_bytes(sources, &self.report.rows) < WORTH_THREADS {
            return Ok(self);
        }
        let RunReport {
            past,
            report,
            numbers,
            book,
        } = self;
        let named = named_after(alloc, past.sources(), &report.rows)?;
        let past = past.with_digests_by(rt, alloc, threads, &named)?;
        Ok(RunReport {
            past,
            report,
            numbers,
            book,
        })
    }

    /// The report with the text of the new book in memory.
    pub fn into_report(self, alloc: Global) -> Result<Report, AllocError>
        ensures { IfOk result (λ report. report ≡ self) }
    {
        let RunReport {
            past,
            mut report,
            numbers,
            book,
        } = self;
        let rows = Rows::new(&report.rows, &numbers);
        let text = new_text(alloc, &past, rows, book.size)?;
        let file = (book_path(alloc)?, Content::new(text)?);
        report.files.insert(book.at, file)?;
        Ok(report)
    }

    /// The report without the new book, and the book's text in memory.
    pub fn into_parts(self, alloc: Global) -> Result<ReportParts, AllocError>
        ensures { IfOk result (λ parts. IsWithBook parts.report parts.book self) }
    {
        let RunReport {
            past,
            report,
            numbers,
            book,
        } = self;
        let rows = Rows::new(&report.rows, &numbers);
        let text = new_text(alloc, &past, rows, book.size)?;
        let book = Content::new(text)?;
        Ok(ReportParts { report, book })
    }

    /// The report without the new book, whose text isn't made.
    pub fn without_book(self) -> Report
        ensures { (book : List ℕ) × IsWithBook result book self }
    {
        let RunReport { report, .. } = self;
        report
    }

    /// Writes the report with its files. The text of the new book is written piece by piece, and is never in memory.
    /// Hand in a buffered writer, as many of the pieces are small. Without memory nothing is written; a failure of
    /// the writer leaves a prefix written.
    pub fn write<W: ByteOut>(&self, alloc: Global, out: &mut W) -> Result<(), WriteFault>
        requires works { W.has_failed out.old ≡ false }
        ensures writes { Writes (W.held out.old) (W.held out.new) result (report_text self.now true) }
        ensures untouched { IsErrOf result WriteFault.Memory → out.new ≡ out.old }
        ensures device { IsErrOf result WriteFault.Device ↔ (W.has_failed out.new ≡ true) }
    {
        let rows = Rows::new(&self.report.rows, &self.numbers);
        let (mut states, items) = parts_of(alloc, &self.past, rows)?;
        write_with_book(out, &self.report, self.book, &mut states, &items)?;
        Ok(())
    }
}

/// Writes a report with its files, one of which is the new book, made of these items.
fn write_with_book<W: ByteOut>(
    out: &mut W,
    report: &Report,
    book: BookFile,
    states: &mut States<'_>,
    items: &[BookItem<'_>],
) -> Result<(), Broken>
    requires works { W.has_failed out.old ≡ false }
    requires within { book.at ≤ length report.now.files.items }
    requires size { book.size ≡ length (text_of (book_lines (map (record_in states.old) items.now))) }
    ensures writes { Writes (W.held out.old) (W.held out.new) result
        (text_with_book report.now book.at (text_of (book_lines (map (record_in states.old) items.now)))) }
    ensures failed { W.has_failed out.new ≡ is_err result }
{
    let alloc = *report.rows.allocator();
    write_head(out, report)?;
    write_files(out, &report.files[..book.at])?;
    write_book(out, alloc, book.size, states, items)?;
    write_files(out, &report.files[book.at..])?;
    write_end(out)
}

/// Writes the file of the new book, whose text has exactly `size` bytes, in a bundle's form.
fn write_book<W: ByteOut>(
    out: &mut W,
    alloc: Global,
    size: usize,
    states: &mut States<'_>,
    items: &[BookItem<'_>],
) -> Result<(), Broken>
    requires works { W.has_failed out.old ≡ false }
    requires size { size ≡ length (text_of (book_lines (map (record_in states.old) items.now))) }
    ensures writes { Writes (W.held out.old) (W.held out.new) result
        (file_text (path_of_book, text_of (book_lines (map (record_in states.old) items.now)))) }
    ensures failed { W.has_failed out.new ≡ is_err result }
{
    write_file_head(out, size, BOOK)?;
    write_text(out, alloc, states, items)?;
    write_all(out, b"\n")
}

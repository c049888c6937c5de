//! The tree that was read, the sources in it, and the book of the last run.

ghost use Rattle.std.specs.Prelude.{◌≡◌, ◌<◌, ◌∷◌, [], true, Some, None, IfErr, IfOk, IfSome, MatchOption, length, map};
ghost use Rattle.std.specs.Prelude.{option_and_then, slice_get};
ghost use Rattle.redo_which.specs.Rule.{found_of, is_rule};
ghost use Rattle.redo_report.specs.Reports.{AreAscending, row_paths};
ghost use Rattle.redo_past.specs.NewBook.{IsResultOf};
ghost use Rattle.std.specs.Arc.{arc_value};
ghost use Rattle.redo_tree.specs.Tree.{file_at};
ghost use Rattle.redo_book.specs.Book.{record_at, IsText};
ghost use Rattle.redo_past.specs.Past.{HasNoPast, IsPast, RefusesBook, intact_record};
ghost use Rattle.redo_past.specs.Past.{set_aside as aside_of};
ghost use Rattle.redo_tree.specs.Tree.{without};
ghost use Rattle.redo_book.specs.declared.faults.BookFault.TheVariants as faults;
ghost use Rattle.redo_which.specs.Candidates.{book_path as path_of_book};

use crate::books::make_place;
use crate::hints::RecordHints;
use crate::named::named_by;
use crate::new_book::text_size;
use crate::place::{book_in, book_path};
use crate::row_digests::with_row_digests;
use crate::rows::{Rows, numbers_of};
use crate::run_report::{BookFile, RunReport};
use crate::standing::is_generated;
use redo_book::{Book, BookFault};
use redo_path::Path;
use redo_report::{Report, Row};
use redo_tree::Tree;
use redo_tree::laws::no_other_file_is_taken_out;
use std::alloc::{AllocError, Global};
use std::marker::Model;
use std::sync::Arc;
use std::thread::Threads;

/// What a run takes over from the last one: the tree as it was read, the book in it, and the sources, which are the
/// tree without the book and without generated files. A file is generated if it has the digest that the book has for
/// its path; one that differs was changed by hand, and is a source.
#[derive(Drop)]
pub struct Past {
    tree: Arc<Tree>,
    sources: Arc<Tree>,
    book: Arc<Book>,
    /// Where the records of the tree's files stand in the book. No contract speaks of it.
    hints: Arc<RecordHints>,
}

impl Model for Past {
    ghost use Rattle.std.specs.Arc.{arc_value};
    ghost use Rattle.redo_past.specs.Past.{IsPast, PastView};

    ghost Value = { PastView };

    ghost view = { λ p.
        record { tree = arc_value p.tree; sources = arc_value p.sources; book = arc_value p.book } };

    ghost invariant = { λ p.
        IsPast (record { tree = arc_value p.tree; sources = arc_value p.sources; book = arc_value p.book }) };
}

/// The paths of the files that aren't sources: the book's, and those of generated files.
fn set_aside(alloc: Global, tree: &Tree, book: &Book) -> Result<Vec<Path>, AllocError>
    ensures { IfOk result (λ paths. paths.items ≡ aside_of tree.now book.now) }
{
    let mut paths = Vec::new(alloc);
    paths.push(book_path(alloc)?)?;
    for record in book.records() {
        if is_generated(tree, record) {
            paths.push(record.target.clone()?)?;
        }
    }
    Ok(paths)
}

/// The sources of a tree with a book.
fn sources_of(alloc: Global, tree: &Tree, book: &Book) -> Result<Arc<Tree>, AllocError>
    ensures { IfOk result (λ sources. arc_value sources ≡ without tree.now (aside_of tree.now book.now)) }
{
    let aside = set_aside(alloc, tree, book)?;
    let sources = tree.without(alloc, &aside)?;
    Ok(Arc::new(alloc, sources)?)
}

impl Past {
    /// Reads the book of a tree and sets aside the files that aren't sources. Contents are shared with the tree;
    /// without a book, so is all the rest. The files that the book has digests of are digested once, and keep their
    /// digests. If memory runs out, nothing is said of the book.
    pub fn open(alloc: Global, tree: Tree) -> Result<Past, BookFault>
        ensures tree { IfOk result (λ past. past.tree ≡ tree) }
        ensures past { IfOk result IsPast }
        ensures refused { IfErr result (λ fault. RefusesBook fault tree) }
        ensures none { IfErr result (λ fault. HasNoPast fault tree) }
    {
        tree.is_tree();
        match book_in(alloc, &tree)? {
            Some(book) => {
                let mut hints = RecordHints::new(alloc, tree.len())?;
                let named = named_by(alloc, &tree, &book, &mut hints)?;
                Past::with_book_of(alloc, tree.keep_digests(&named), book, hints)
            }
            None => Past::without_book(alloc, tree),
        }
    }

    /// The same as [`Past::open`], with at most `threads` threads that make the digests.
    pub fn open_by<R: Threads + Sync>(
        rt: &R,
        alloc: Global,
        threads: usize,
        tree: Tree,
    ) -> Result<Past, BookFault>
        ensures tree { IfOk result (λ past. past.tree ≡ tree) }
        ensures past { IfOk result IsPast }
        ensures refused { IfErr result (λ fault. RefusesBook fault tree) }
        ensures none { IfErr result (λ fault. HasNoPast fault tree) }
    {
        tree.is_tree();
        match book_in(alloc, &tree)? {
            Some(book) => {
                let mut hints = RecordHints::new(alloc, tree.len())?;
                let named = named_by(alloc, &tree, &book, &mut hints)?;
                let tree = tree.keep_digests_by(rt, threads, &named);
                Past::with_book_of(alloc, tree, book, hints)
            }
            None => Past::without_book(alloc, tree),
        }
    }

    /// The past of a tree without a book: every file is a source.
    fn without_book(alloc: Global, tree: Tree) -> Result<Past, BookFault>
        requires none { file_at tree path_of_book ≡ None }
        ensures tree { IfOk result (λ past. past.tree ≡ tree) }
        ensures past { IfOk result IsPast }
        ensures memory { IfErr result (λ fault. fault ≡ faults.Memory) }
    {
        tree.is_tree();
        let tree = Arc::new(alloc, tree)?;
        let sources = Arc::try_clone(&tree)?;
        let book = Arc::new(alloc, Book::new(alloc))?;
        let hints = Arc::new(alloc, RecordHints::new(alloc, 0)?)?;
        Ok(Past {
            tree,
            sources,
            book,
            hints,
        })
    }

    /// The past of a tree with its book.
    fn with_book_of(
        alloc: Global,
        tree: Tree,
        book: Book,
        hints: RecordHints,
    ) -> Result<Past, BookFault>
        requires book { MatchOption (file_at tree path_of_book) ⊥ (λ text. IsText text book) }
        ensures tree { IfOk result (λ past. past.tree ≡ tree) }
        ensures past { IfOk result IsPast }
        ensures memory { IfErr result (λ fault. fault ≡ faults.Memory) }
    {
        tree.is_tree();
        let sources = sources_of(alloc, &tree, &book)?;
        let tree = Arc::new(alloc, tree)?;
        let book = Arc::new(alloc, book)?;
        let hints = Arc::new(alloc, hints)?;
        Ok(Past {
            tree,
            sources,
            book,
            hints,
        })
    }

    /// The same past again. All that it has is shared.
    pub fn share(&self) -> Result<Past, AllocError>
        ensures { IfOk result (λ past. past ≡ self.now) }
    {
        let tree = Arc::try_clone(&self.tree)?;
        let sources = Arc::try_clone(&self.sources)?;
        let book = Arc::try_clone(&self.book)?;
        let hints = Arc::try_clone(&self.hints)?;
        Ok(Past {
            tree,
            sources,
            book,
            hints,
        })
    }

    /// The same past, in which the named files of the sources keep their digests. `named` has an answer for each number
    /// of the tree. At most `threads` threads make the digests.
    pub(crate) fn with_digests_by<R: Threads + Sync>(
        self,
        rt: &R,
        alloc: Global,
        threads: usize,
        named: &[bool],
    ) -> Result<Past, AllocError>
        ensures { IfOk result (λ past. past ≡ self) }
    {
        let Past {
            tree,
            sources,
            book,
            hints,
        } = self;
        let sources = Tree::clone(&sources)?.keep_digests_by(rt, threads, named);
        let sources = Arc::new(alloc, sources)?;
        Ok(Past {
            tree,
            sources,
            book,
            hints,
        })
    }

    /// Shows that the book and the sources are those of the tree, as laws of pasts ask.
    pub fn is_past(&self)
        ensures { IsPast self.now }
    {
        // A field is read so that the invariant is at hand in the proof. Nothing runs.
        let _ = &self.book;
    }

    /// The tree as it was read.
    pub fn tree(&self) -> &Arc<Tree>
        ensures tree { arc_value result.now ≡ self.now.tree }
        ensures past { IsPast self.now }
    {
        &self.tree
    }

    /// The sources.
    pub fn sources(&self) -> &Arc<Tree>
        ensures sources { arc_value result.now ≡ self.now.sources }
        ensures past { IsPast self.now }
    {
        &self.sources
    }

    /// The book of the last run, empty if the tree has none.
    pub fn book(&self) -> &Book
        ensures book { result.now ≡ self.now.book }
        ensures past { IsPast self.now }
    {
        &self.book
    }

    /// The index of a target's record, if there is a hint. `at` is the number of what the tree has at the target, if
    /// anything.
    fn hinted(&self, target: &Path, at: Option<usize>) -> Option<usize>
        ensures found { IfSome result (λ n. slice_get self.now.book n ≡ record_at self.now.book target.now) }
        ensures within { IfSome result (λ n. n < length self.now.book) }
    {
        let index = self.hints.index_for(at?)?;
        let record = self.book().records().get(index)?;
        if record.target == *target {
            Some(index)
        } else {
            None
        }
    }

    /// The index of a target's record, if it has one. The book is searched only where no hint tells it.
    fn record_number(&self, target: &Path, at: Option<usize>) -> Option<usize>
        ensures found { option_and_then (λ n. slice_get self.now.book n) result ≡ record_at self.now.book target.now }
        ensures within { IfSome result (λ n. n < length self.now.book) }
    {
        match self.hinted(target, at) {
            Some(number) => Some(number),
            None => self.book.number_of(target),
        }
    }

    /// The index of a target's record, if it has one and is as the last run left it. A target with a rule isn't a
    /// source, so what stands at its path is the generated file that the record tells of; it isn't digested again.
    pub fn intact(&self, target: &Path) -> Option<usize>
        requires rule { is_rule (found_of self.now.sources target.now) ≡ true }
        ensures found { option_and_then (λ n. slice_get self.now.book n) result ≡ intact_record self.now target.now }
        ensures within { IfSome result (λ n. n < length self.now.book) }
    {
        self.tree().is_tree();
        no_other_file_is_taken_out();
        let at = self.tree.number_of(target);
        let number = self.record_number(target, at)?;
        let records = self.book().records();
        let state = &records[number].state;
        if state.is_some() == at.is_some() {
            Some(number)
        } else {
            None
        }
    }

    /// The report of a run with the new book among its files, in place of any file at its path. The digests of short files
    /// that were built are made here, four at a time, unless they were made before.
    pub fn with_book(&self, alloc: Global, report: Report) -> Result<RunReport, AllocError>
        requires rows { AreAscending (row_paths report) }
        requires files { AreAscending (map (λ file. file.0) report.files.items) }
        ensures { IfOk result (λ whole. IsResultOf self.now report whole) }
    {
        self.with_book_of_rows(alloc, with_row_digests(report))
    }

    /// The same, with the digests that there are.
    fn with_book_of_rows(&self, alloc: Global, report: Report) -> Result<RunReport, AllocError>
        requires rows { AreAscending (row_paths report) }
        requires files { AreAscending (map (λ file. file.0) report.files.items) }
        ensures { IfOk result (λ whole. IsResultOf self.now report whole) }
    {
        self.tree().is_tree();
        no_other_file_is_taken_out();
        let numbers = numbers_of(alloc, &report.rows)?;
        let rows = Rows::new(&report.rows, &numbers);
        let size = text_size(alloc, self, rows)?;
        let Report {
            rows,
            mut files,
            begun,
        } = report;
        let at = make_place(&mut files, &book_path(alloc)?)?;
        let report = Report { rows, files, begun };
        let book = BookFile { at, size };
        Ok(RunReport::new(self.share()?, report, numbers, book))
    }
}

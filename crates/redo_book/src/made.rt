//! What the lines of a book have made so far.

ghost use Rattle.std.specs.Prelude.{◌≡◌, ◌++◌, ◌∷◌, [], IfOk, IfSome, OnOk, map};
ghost use Rattle.redo_book.specs.declared.book.BookEntry.TheVariants.{Always};
ghost use Rattle.redo_book.specs.Book.{IsBook, record_of};
ghost use Rattle.redo_book.specs.inside.Reading.{Finds, IsKept, Keeps, Makes, at_first, dep_of as dep_in, made_of};
ghost use Rattle.redo_book.specs.inside.Reading.{may_follow as stands_behind, new_entry, next};
ghost use Rattle.redo_book.specs.inside.Reading.{records_of, with_entry, with_line};
ghost use Rattle.redo_book.specs.declared.lines.Line.TheVariants.{Target};

use crate::lines::{Line, read_line};
use crate::{Book, BookEntry, BookFault, BookRecord};
use redo_digest::Digest;
use redo_path::Path;
use redo_record::{Dep, DepKind, Deps};
use std::alloc::{AllocError, Global};
use std::mem;

/// The record that may get more entries.
#[derive(Drop)]
pub(crate) struct Last {
    book_record: BookRecord,
    /// Its entries other than `always`. Each new one is looked up here.
    deps: Deps,
    /// Whether it has the entry `always`.
    always: bool,
}

/// The dependency of an entry; `None` for `always`.
fn dep_of(entry: &BookEntry) -> Result<Option<Dep>, AllocError>
    ensures { IfOk result (λ dep. dep ≡ dep_in entry.now) }
{
    let (kind, path) = match entry {
        BookEntry::Change(_, path) => (DepKind::Change, path),
        BookEntry::Create(path) => (DepKind::Create, path),
        BookEntry::Always => return Ok(None),
    };
    let path = path.clone()?;
    Ok(Some(Dep { kind, path }))
}

/// The path of an entry; `None` for `always`.
fn path_of(entry: &BookEntry) -> Option<&Path> {
    match entry {
        BookEntry::Change(_, path) | BookEntry::Create(path) => Some(path),
        BookEntry::Always => None,
    }
}

impl Last {
    /// A record without entries.
    fn new(alloc: Global, target: Path, state: Option<Digest>) -> Last
        ensures bare { record_of result.book_record ≡ record { target = target; state = state; entries = [] } }
        ensures kept { IsKept result }
    {
        Last {
            book_record: BookRecord {
                target,
                state,
                entries: Vec::new(alloc),
            },
            deps: Deps::new(alloc),
            always: false,
        }
    }

    /// Starts the record of a target in place of this one, which is complete and is returned. Most successive records
    /// are alike, so the new one gets room at once for as many entries as this one has, and the set for looking them up
    /// is reused.
    fn begin(
        &mut self,
        alloc: Global,
        target: Path,
        state: Option<Digest>,
    ) -> Result<BookRecord, AllocError>
        ensures whole { IfOk result (λ whole. whole ≡ self.old.book_record) }
        ensures bare { OnOk result (record_of self.new.book_record ≡
            record { target = target; state = state; entries = [] }) }
        ensures kept { OnOk result (IsKept self.new) }
    {
        let entries = Vec::with_capacity(alloc, self.book_record.entries.len())?;
        self.deps.clear();
        self.always = false;
        let next = BookRecord {
            target,
            state,
            entries,
        };
        Ok(mem::replace(&mut self.book_record, next))
    }

    /// Notes `always` as an entry. It is a fault if it is one already.
    fn note_always(&mut self, number: u64) -> Result<(), BookFault>
        requires { IsKept self.old }
        ensures new { Finds number result (new_entry self.old.book_record.entries.items Always) }
        ensures same { self.new.book_record ≡ self.old.book_record }
        ensures kept { OnOk result (Keeps self.new (self.old.book_record.entries.items ++ Always ∷ [])) }
    {
        if self.always {
            return Err(BookFault::Line(number));
        }
        self.always = true;
        Ok(())
    }

    /// Notes the next entry. It is a fault if there is one of its kind and path already.
    fn note(&mut self, number: u64, entry: &BookEntry) -> Result<(), BookFault>
        requires { IsKept self.old }
        ensures new { Finds number result (new_entry self.old.book_record.entries.items entry.now) }
        ensures same { self.new.book_record ≡ self.old.book_record }
        ensures kept { OnOk result (Keeps self.new (self.old.book_record.entries.items ++ entry.now ∷ [])) }
    {
        let Some(dep) = dep_of(entry)? else {
            return self.note_always(number);
        };
        let before = self.deps.len();
        self.deps.insert(dep)?;
        if self.deps.len() == before {
            return Err(BookFault::Line(number));
        }
        Ok(())
    }

    /// Adds an entry. It is a fault if there is one of its kind and path already.
    fn add(&mut self, number: u64, entry: BookEntry) -> Result<(), BookFault>
        requires { IsKept self.old }
        ensures adds { Makes number result (with_entry (record_of self.old.book_record) entry)
            (record_of self.new.book_record) }
        ensures kept { OnOk result (IsKept self.new) }
    {
        self.note(number, &entry)?;
        self.book_record.entries.push(entry)?;
        Ok(())
    }
}

/// Adds a complete record after the others. From now on its entries take no more room than they need.
fn put_whole(done: &mut Vec<BookRecord>, mut whole: BookRecord) -> Result<(), AllocError>
    ensures { OnOk result (map record_of done.new.items ≡ map record_of done.old.items ++ record_of whole ∷ []) }
{
    whole.entries.shrink_to_fit();
    done.push(whole)?;
    Ok(())
}

/// What the lines so far have made: the complete records, and the one that may get more entries.
#[derive(Drop)]
pub(crate) struct Made {
    done: Vec<BookRecord>,
    last: Option<Last>,
}

impl Made {
    /// Nothing made yet.
    pub(crate) fn new(alloc: Global) -> Made
        ensures made { made_of result ≡ at_first }
        ensures kept { IfSome result.last IsKept }
    {
        Made {
            done: Vec::new(alloc),
            last: None,
        }
    }

    /// Whether the record of a target may come next.
    fn may_follow(&self, target: &Path) -> bool
        ensures { result ≡ stands_behind (made_of self.now).last target.now }
    {
        match &self.last {
            Some(last) => last.book_record.target < *target,
            None => true,
        }
    }

    /// Starts the record of a target, unless it is out of order.
    fn add_target(
        &mut self,
        alloc: Global,
        number: u64,
        state: Option<Digest>,
        target: Path,
    ) -> Result<(), BookFault>
        requires { IfSome self.old.last IsKept }
        ensures adds { Makes number result (with_line (made_of self.old) (Target state target)) (made_of self.new) }
        ensures kept { OnOk result (IfSome self.new.last IsKept) }
    {
        if !self.may_follow(&target) {
            return Err(BookFault::Line(number));
        }
        let Some(last) = &mut self.last else {
            self.last = Some(Last::new(alloc, target, state));
            return Ok(());
        };
        let whole = last.begin(alloc, target, state)?;
        put_whole(&mut self.done, whole)?;
        Ok(())
    }

    /// Adds what a line says, unless it is out of place.
    fn add(&mut self, alloc: Global, number: u64, line: Line) -> Result<(), BookFault>
        requires { IfSome self.old.last IsKept }
        ensures adds { Makes number result (with_line (made_of self.old) line) (made_of self.new) }
        ensures kept { OnOk result (IfSome self.new.last IsKept) }
    {
        match line {
            Line::Target(state, target) => self.add_target(alloc, number, state, target),
            Line::Entry(entry) => match &mut self.last {
                Some(last) => last.add(number, entry),
                None => Err(BookFault::Line(number)),
            },
        }
    }

    /// The path that the next entry is likely to have: that of the entry at the same position in the previous record.
    /// Most successive records are of neighbours in one directory. Their searches looked for the same candidates but
    /// for the first, so most of their paths are the same. Made anew for each line, these would take more memory than
    /// all else in a book.
    fn likely(&self) -> Option<&Path> {
        let last = self.last.as_ref()?;
        let before = self.done.last()?;
        path_of(before.entries.get(last.book_record.entries.len())?)
    }

    /// Adds a line, unless it says nothing or something out of place.
    pub(crate) fn add_line(
        &mut self,
        alloc: Global,
        number: u64,
        line: &[u8],
    ) -> Result<(), BookFault>
        requires { IfSome self.old.last IsKept }
        ensures adds { Makes number result (next (made_of self.old) line.now) (made_of self.new) }
        ensures kept { OnOk result (IfSome self.new.last IsKept) }
    {
        let line = read_line(alloc, number, line, self.likely())?;
        self.add(alloc, number, line)
    }

    /// The book of the records.
    pub(crate) fn finish(self) -> Result<Book, AllocError>
        requires { IsBook (records_of (made_of self)) }
        ensures { IfOk result (λ book. book ≡ records_of (made_of self)) }
    {
        let Made { mut done, last } = self;
        if let Some(last) = last {
            let Last { book_record, .. } = last;
            put_whole(&mut done, book_record)?;
        }
        Ok(Book::of_records(done))
    }
}

//! Books and their records.

ghost use Rattle.std.specs.Prelude.{◌≡◌, ◌<◌, ◌++◌, ◌∷◌, [], IfSome, OnErr, OnOk, length, map, option_and_then};
ghost use Rattle.std.specs.Prelude.{option_copied, option_map, slice_get};
ghost use Rattle.std.specs.Cmp.Lexicographic.{slice_cmp};
ghost use Rattle.std.specs.List.Sorted.{IsBinarySearchResult, IsSearchInRange};
ghost use Rattle.std.specs.Ordering.{nat_cmp};
ghost use Rattle.redo_book.specs.Book.{IsBook, record_at, record_of};

use redo_digest::Digest;
use redo_path::Path;
use std::alloc::{AllocError, Global};
use std::cmp::Ordering;
use std::marker::Model;

/// When a target must be rebuilt.
#[derive(Clone, Debug, PartialEq, Eq, Drop)]
pub enum BookEntry {
    /// When this path's state is no longer this: the digest of the file there, or none.
    Change(Option<Digest>, Path),
    /// When something comes to exist at this path.
    Create(Path),
    /// Always.
    Always,
}

/// What became of a target in the last run, and what it depended on.
#[derive(Clone, Debug, PartialEq, Eq, Drop)]
pub struct BookRecord {
    pub target: Path,
    /// The digest of its file, or `None` if it made no file.
    pub state: Option<Digest>,
    /// In the order in which they were recorded.
    pub entries: Vec<BookEntry>,
}

/// The records of a run, sorted by target, each target once. In a contract it is the list of these records.
#[derive(Debug, Drop)]
pub struct Book {
    records: Vec<BookRecord>,
}

impl Model for Book {
    ghost use Rattle.std.specs.Prelude.{List, map};
    ghost use Rattle.redo_book.specs.Book.{IsBook, Record, record_of};

    ghost Value = { List Record };

    ghost view = { λ b. map record_of b.records.items };

    ghost invariant = { λ b. IsBook (map record_of b.records.items) };
}

/// The index of a target's record, or where it would be inserted.
fn search(records: &[BookRecord], target: &Path) -> Result<usize, usize>
    ensures within { IsSearchInRange result (length records.now) }
    ensures place { IsBinarySearchResult (λ r. slice_cmp nat_cmp r.target target.now) records.now result }
{
    records.binary_search_by(
        |at: &BookRecord| -> Ordering
            ensures { result ≡ slice_cmp nat_cmp at.now.target target.entry.now }
        { at.target.cmp(target) },
    )
}

impl Book {
    /// A book without records.
    pub fn new(alloc: Global) -> Book
        ensures { result ≡ [] }
    {
        Book {
            records: Vec::new(alloc),
        }
    }

    /// The book of these records.
    pub fn of_records(records: Vec<BookRecord>) -> Book
        requires { IsBook (map record_of records.items) }
        ensures { result ≡ map record_of records.items }
    {
        Book { records }
    }

    /// The number of a target's record, from 0 in the order of targets; `None` if there is none.
    pub fn number_of(&self, target: &Path) -> Option<usize>
        ensures found { option_and_then (λ n. slice_get self.now n) result ≡ record_at self.now target.now }
        ensures within { IfSome result (λ n. n < length self.now) }
    {
        match search(&self.records, target) {
            Ok(at) => Some(at),
            Err(_) => None,
        }
    }

    /// The record of a target, if there is one.
    pub fn find(&self, target: &Path) -> Option<&BookRecord>
        ensures { option_map record_of (option_copied result) ≡ record_at self.now target.now }
    {
        match self.number_of(target) {
            Some(at) => Some(&self.records[at]),
            None => None,
        }
    }

    /// The records, sorted by target.
    pub fn records(&self) -> &[BookRecord]
        ensures records { map record_of result.now ≡ self.now }
        ensures book { IsBook self.now }
    {
        self.records.as_slice()
    }
}

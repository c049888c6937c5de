//! The state of each path when a run ends.

ghost use Rattle.std.specs.Prelude.{◌≡◌, IfOk, is_some};
ghost use Rattle.redo_digest.specs.Digest.{IsState, state_of as state_in};
ghost use Rattle.redo_record.specs.Answers.{file_in};
ghost use Rattle.redo_past.specs.NewBook.{state_after};

use crate::rows::Rows;
use redo_digest::Digest;
use redo_path::Path;
use redo_record::Outcome;
use redo_tree::{FileDigests, Tree};
use std::alloc::{AllocError, Global};
use std::marker::Model;

/// The state of a target: that of the file that it was built with, or none.
pub(crate) fn built_state(outcome: &Outcome) -> Option<Digest>
    ensures value { result ≡ state_in (file_in outcome.now) }
    ensures state { IsState result }
{
    match outcome {
        Outcome::Built(Some(content)) => Some(content.digest()),
        Outcome::Built(None) | Outcome::Source | Outcome::Failed(_) | Outcome::Cyclic => None,
    }
}

/// Whether a target was built with a file.
pub(crate) fn has_made(outcome: &Outcome) -> bool
    ensures { result ≡ is_some (state_in (file_in outcome.now)) }
{
    matches!(outcome, Outcome::Built(Some(_)))
}

/// The paths that have a file when a run ends: the sources, and the targets that were built with one by the rows. In a
/// contract it is the sources and the rows.
#[derive(Drop)]
pub(crate) struct Files<'a> {
    sources: &'a Tree,
    rows: Rows<'a>,
}

impl<'a> Model for Files<'a> {
    ghost use Rattle.redo_past.specs.inside.Books.{StatesView};

    ghost Value = { StatesView };

    ghost view = { λ f. record { sources = f.sources.now; rows = f.rows } };
}

impl<'a> Files<'a> {
    /// With these sources and rows.
    pub(crate) fn new(sources: &'a Tree, rows: Rows<'a>) -> Files<'a>
        ensures { result ≡ record { sources = sources.now; rows = rows.entry } }
    {
        Files { sources, rows }
    }

    /// Whether there is a file at a path. No digest is made for it.
    pub(crate) fn has_file(&self, path: &Path) -> bool
        ensures { result ≡ is_some (state_after self.now.sources self.now.rows path.now) }
    {
        if self.sources.file(path).is_some() {
            return true;
        }
        match self.rows.find(path) {
            Some(row) => has_made(&row.outcome),
            None => false,
        }
    }
}

/// The state of each path when a run ends, from the sources and from what was built by the rows. No source is digested
/// twice. In a contract it is the sources and the rows.
#[derive(Drop)]
pub(crate) struct States<'a> {
    sources: FileDigests<'a>,
    rows: Rows<'a>,
}

impl<'a> Model for States<'a> {
    ghost use Rattle.redo_past.specs.inside.Books.{StatesView};

    ghost Value = { StatesView };

    ghost view = { λ s. record { sources = s.sources; rows = s.rows } };
}

impl<'a> States<'a> {
    /// With these sources and rows.
    pub(crate) fn new(
        alloc: Global,
        sources: &'a Tree,
        rows: Rows<'a>,
    ) -> Result<States<'a>, AllocError>
        ensures { IfOk result (λ states. states ≡ record { sources = sources.now; rows = rows.entry }) }
    {
        let sources = sources.file_digests(alloc)?;
        Ok(States { sources, rows })
    }

    /// Makes the digests of the named sources that are short, four at a time.
    pub(crate) fn prepare(&mut self, named: &[bool])
        ensures { self.new ≡ self.old }
    {
        self.sources.prepare(named);
    }

    /// The state of a path.
    pub(crate) fn state_at(&mut self, path: &Path) -> Option<Digest>
        ensures value { result ≡ state_after self.old.sources self.old.rows path.now }
        ensures state { IsState result }
        ensures same { self.new ≡ self.old }
    {
        if let Some(state) = self.sources.state_at(path) {
            return Some(state);
        }
        match self.rows.find(path) {
            Some(row) => built_state(&row.outcome),
            None => None,
        }
    }
}

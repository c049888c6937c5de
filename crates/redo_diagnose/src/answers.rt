//! The outcomes that a report has, as answers to its scripts.

ghost use Rattle.std.specs.Prelude.{◌≡◌, List, ℕ, Option, option_copied, option_map, bytes_eq};
ghost use Rattle.std.specs.Map.{lookup};

use redo_names::PathMap;
use redo_path::Path;
use redo_record::Outcome;
use redo_report::Row;
use redo_step::Answers;
use std::alloc::{AllocError, Global};

/// The outcome of each row of a report, found by its path.
#[derive(Drop)]
pub(crate) struct Answered<'a> {
    outcomes: PathMap<&'a Outcome>,
}

impl<'a> Answered<'a> {
    /// The outcomes of these rows.
    pub(crate) fn of(alloc: Global, rows: &'a [Row]) -> Result<Answered<'a>, AllocError> {
        let mut outcomes = PathMap::with_capacity(alloc, rows.len())?;
        for row in rows {
            outcomes.insert(row.path.clone()?, &row.outcome)?;
        }
        Ok(Answered { outcomes })
    }
}

impl Answers for Answered<'_> {
    ghost ask = { λ answered path. option_map (λ outcome. outcome.now) (lookup (bytes_eq path) answered.outcomes) };

    fn answer(&self, path: &Path) -> Option<&Outcome> {
        match self.outcomes.get(path) {
            Some(outcome) => Some(*outcome),
            None => None,
        }
    }
}

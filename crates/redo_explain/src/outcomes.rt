//! What a report tells of a path.

ghost use Rattle.std.specs.Prelude.{◌≡◌, Some, length, option_copied, option_map};
ghost use Rattle.std.specs.Cmp.Lexicographic.{slice_cmp};
ghost use Rattle.std.specs.List.Sorted.{IsBinarySearchResult, IsSearchInRange};
ghost use Rattle.std.specs.Ordering.{nat_cmp};
ghost use Rattle.redo_past.specs.NewBook.{row_at};
ghost use Rattle.redo_explain.specs.inside.Told.{AreRows};

use redo_path::Path;
use redo_record::Outcome;
use redo_report::Row;
use std::cmp::Ordering;

/// The index of a path's row, or where it would be inserted.
fn search(rows: &[Row], path: &Path) -> Result<usize, usize>
    ensures within { IsSearchInRange result (length rows.now) }
    ensures place { IsBinarySearchResult (λ row. slice_cmp nat_cmp row.path path.now) rows.now result }
{
    rows.binary_search_by(
        |at: &Row| -> Ordering
            ensures { result ≡ slice_cmp nat_cmp at.now.path path.entry.now }
        { at.path.cmp(path) },
    )
}

/// The outcome of a path, if it has a row. The rows are in path order.
pub(crate) fn outcome_of<'a>(rows: &'a [Row], path: &Path) -> Option<&'a Outcome>
    ensures { AreRows rows.now →
        option_copied result ≡ option_map (λ row. row.outcome) (row_at rows.now path.now) }
{
    match search(rows, path) {
        Ok(at) => Some(&rows[at].outcome),
        Err(_) => None,
    }
}

//! The digests of what was built, four at a time.

ghost use Rattle.std.specs.Prelude.{◌≡◌};
ghost use Rattle.redo_record.specs.Answers.{file_in};

use redo_digest::Digest;
use redo_record::Outcome;
use redo_report::{Report, Row};
use redo_tree::{Content, Contents, keep_fours};

/// Rows of what was built with a file have one.
struct BuiltFiles;

impl Contents for BuiltFiles {
    type Of = Row;

    ghost bytes_in = { λ row. file_in row.outcome };

    fn content(value: &Row) -> Option<&Content> {
        match &value.outcome {
            Outcome::Built(content) => content.as_ref(),
            Outcome::Source | Outcome::Failed(_) | Outcome::Cyclic => None,
        }
    }

    fn put_digest(value: &mut Row, digest: Digest) {
        match &mut value.outcome {
            Outcome::Built(Some(content)) => content.put_digest(digest),
            Outcome::Built(None) | Outcome::Source | Outcome::Failed(_) | Outcome::Cyclic => {}
        }
    }
}

/// The same report, whose rows have the digests of their short files.
pub(crate) fn with_row_digests(report: Report) -> Report
    ensures rows { result.rows.items ≡ report.rows.items }
    ensures files { result.files ≡ report.files }
    ensures begun { result.begun ≡ report.begun }
{
    let mut report = report;
    keep_fours::<BuiltFiles, _>(&mut report.rows, |_| true);
    report
}

//! The lines of a report in few lines.

ghost use Rattle.std.specs.Prelude.{◌≡◌, ◌++◌, IfOk, OnOk, codes, flat_map, string_bytes};
ghost use Rattle.redo_names.specs.Paths.{is_among};
ghost use Rattle.redo_report.specs.ReportText.{outcome_words};
ghost use Rattle.redo_short.specs.Short.{is_told as is_told_of, row_line, row_lines, short_of, short_report, summary_of};

use crate::counts::summary_by;
use redo_diagnose::why_text;
use redo_names::PathSet;
use redo_record::Outcome;
use redo_report::{Report, Row};
use std::alloc::{AllocError, Global};

/// What became of a path, in the words of a report.
fn outcome_text(alloc: Global, outcome: &Outcome) -> Result<String, AllocError>
    ensures { IfOk result (λ text. string_bytes text ≡ outcome_words outcome.now) }
{
    match outcome {
        Outcome::Source => String::from_str(alloc, "source"),
        Outcome::Built(None) => String::from_str(alloc, "built none"),
        Outcome::Built(Some(content)) => {
            let size = content.bytes().len();
            format!(in alloc; "built {size}")
        }
        Outcome::Failed(why) => {
            let why = why_text(alloc, *why)?;
            format!(in alloc; "failed {why}")
        }
        Outcome::Cyclic => String::from_str(alloc, "cyclic"),
    }
}

/// Whether a path with this outcome has a line, by whether its script was begun.
fn is_told(outcome: &Outcome, begun: bool) -> bool
    ensures { result ≡ is_told_of outcome.now begun }
{
    match outcome {
        Outcome::Source => false,
        Outcome::Built(_) => begun,
        Outcome::Failed(_) | Outcome::Cyclic => true,
    }
}

/// Adds what became of a row's path, and the path.
fn push_line(alloc: Global, text: &mut Vec<u8>, row: &Row) -> Result<(), AllocError>
    ensures { OnOk result (text.new.items ≡ text.old.items ++ row_line row.now) }
{
    let outcome = outcome_text(alloc, &row.outcome)?;
    text.extend_from_slice(outcome.as_bytes())?;
    text.extend_from_slice(b" ")?;
    text.extend_from_slice(row.path.text())?;
    text.extend_from_slice(b"\n")
}

/// Adds the line of a row, if it has one.
fn push_row(alloc: Global, text: &mut Vec<u8>, begun: &PathSet, row: &Row) -> Result<(), AllocError>
    ensures { OnOk result (text.new.items ≡ text.old.items ++ row_lines (is_among begun.now) row.now) }
{
    if is_told(&row.outcome, begun.contains(&row.path)) {
        push_line(alloc, text, row)?;
    }
    Ok(())
}

/// Adds the lines of rows.
fn push_rows(
    alloc: Global,
    text: &mut Vec<u8>,
    begun: &PathSet,
    rows: &[Row],
) -> Result<(), AllocError>
    ensures { OnOk result (text.new.items ≡ text.old.items ++ flat_map (row_lines (is_among begun.now)) rows.now) }
{
    for row in rows {
        push_row(alloc, text, begun, row)?;
    }
    Ok(())
}

/// Adds the line of the summary.
fn push_summary(
    alloc: Global,
    text: &mut Vec<u8>,
    begun: &PathSet,
    rows: &[Row],
) -> Result<(), AllocError>
    ensures { OnOk result (text.new.items ≡
        text.old.items ++ summary_of (is_among begun.now) rows.now ++ codes "\n") }
{
    let summary = summary_by(alloc, begun, rows)?;
    text.extend_from_slice(summary.as_bytes())?;
    text.extend_from_slice(b"\n")
}

/// The text for rows, with the paths whose scripts were begun.
fn text_by(alloc: Global, begun: &PathSet, rows: &[Row]) -> Result<Vec<u8>, AllocError>
    ensures { IfOk result (λ text. text.items ≡ short_of (is_among begun.now) rows.now) }
{
    let mut text = Vec::new(alloc);
    push_rows(alloc, &mut text, begun, rows)?;
    push_summary(alloc, &mut text, begun, rows)?;
    Ok(text)
}

/// The report in a few lines: one for each target that was built by its script, failed or is cyclic, in the report's
/// words and order, and the summary. Kept targets and sources have no line.
pub fn short_text(alloc: Global, report: &Report) -> Result<Vec<u8>, AllocError>
    ensures { IfOk result (λ text. text.items ≡ short_report report.now) }
{
    let begun = PathSet::of_paths(alloc, &report.begun)?;
    let text = text_by(alloc, &begun, &report.rows)?;
    Ok(text)
}

//! The scripts that a build began, and why.

ghost use Rattle.std.specs.Prelude.{◌≡◌, IfOk, map, option_map};
ghost use Rattle.redo_book.specs.Book.{record_at};
ghost use Rattle.redo_rules.specs.Build.{GivenView, last_run_of};
ghost use Rattle.redo_rules.specs.Results.{IsGiven, IsResult};
ghost use Rattle.redo_step.specs.Limits.{LimitsView};
ghost use Rattle.redo_why.specs.Reasons.{reason_of, reason_recorded};
ghost use Rattle.redo_explain.specs.Explained.{AreReasons};
ghost use Rattle.redo_explain.specs.Views.{begun_view, reason_view};
ghost use Rattle.redo_explain.specs.inside.Listed.{begun_in};
ghost use Rattle.redo_explain.specs.inside.Told.{AreRows, sources_in, told_by};

use crate::standing::first_fallen;
use redo_book::BookEntry;
use redo_names::PathSet;
use redo_past::laws::a_tree_has_one_past;
use redo_past::{Past, is_intact};
use redo_path::Path;
use redo_report::{Report, Row};
use redo_why_trees::laws::reports_give_reasons;
use std::alloc::{AllocError, Global};

/// Why a script was begun.
#[derive(Clone, Copy)]
pub enum Reason<'a> {
    /// Its target was requested.
    Requested,
    /// The book of the last run has no record of its target.
    Unrecorded,
    /// Its target wasn't as the last run left it: its file was gone.
    Altered,
    /// This is the first of its target's recorded entries that fell.
    Fallen(&'a BookEntry),
}

/// A target whose script was begun, and why.
#[derive(Clone, Copy)]
pub struct Begun<'a> {
    pub target: &'a Path,
    pub reason: Reason<'a>,
}

/// The reason by the record of a target that wasn't requested.
fn reason_by_record<'a>(
    alloc: Global,
    past: &'a Past,
    rows: &[Row],
    target: &Path,
) -> Result<Option<Reason<'a>>, AllocError>
    ensures { IfOk result (λ reason. AreRows rows.now → option_map reason_view reason ≡
        reason_recorded (sources_in past.now) (last_run_of past.now) (told_by rows.now)
        (record_at past.now.book target.now)) }
{
    let Some(made) = past.book().find(target) else {
        return Ok(Some(Reason::Unrecorded));
    };
    if !is_intact(past.tree(), made) {
        return Ok(Some(Reason::Altered));
    }
    match first_fallen(alloc, past, rows, &made.entries)? {
        Some(entry) => Ok(Some(Reason::Fallen(entry))),
        None => Ok(None),
    }
}

/// The reason for which the script of a target was begun, if it was.
fn why_begun<'a>(
    alloc: Global,
    past: &'a Past,
    requested: &PathSet,
    rows: &[Row],
    target: &Path,
) -> Result<Option<Reason<'a>>, AllocError>
    ensures { IfOk result (λ reason. AreRows rows.now → option_map reason_view reason ≡
        reason_of (sources_in past.now) (last_run_of past.now) requested.now (told_by rows.now) target.now) }
{
    if requested.contains(target) {
        return Ok(Some(Reason::Requested));
    }
    reason_by_record(alloc, past, rows, target)
}

/// The begun scripts of a report that have a reason, with it.
fn begun_by<'a>(
    alloc: Global,
    past: &'a Past,
    requested: &PathSet,
    report: &'a Report,
) -> Result<Vec<Begun<'a>>, AllocError>
    ensures { IfOk result (λ begun. AreRows report.now.rows.items → map begun_view begun.items ≡
        begun_in past.now requested.now report.now.rows.items report.now.begun.items) }
{
    let mut begun = Vec::new(alloc);
    for target in &report.begun {
        if let Some(reason) = why_begun(alloc, past, requested, &report.rows, target)? {
            begun.push(Begun { target, reason })?;
        }
    }
    Ok(begun)
}

/// The begun scripts of a build, in the report's order, each with the reason for which it was begun.
///
/// `past` is that of the tree that was built, and `request` the paths that were requested.
pub fn reasons<'a>(
    alloc: Global,
    past: &'a Past,
    request: &[Path],
    report: &'a Report,
) -> Result<Vec<Begun<'a>>, AllocError>
    ensures { IfOk result (λ reasons. (limits : LimitsView) (given : GivenView) →
        IsGiven past.now.tree request.now limits given → IsResult given report.now →
        AreReasons given report.now (map begun_view reasons.items)) }
{
    past.is_past();
    a_tree_has_one_past();
    reports_give_reasons();
    let requested = PathSet::of_paths(alloc, request)?;
    begun_by(alloc, past, &requested, report)
}

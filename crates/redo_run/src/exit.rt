//! Whether a run went well.

ghost use Rattle.std.specs.Prelude.{◌≡◌, IfOk};
ghost use Rattle.std.specs.List.{list_any};
ghost use Rattle.redo_rules.specs.Build.{GivenView};
ghost use Rattle.redo_rules.specs.Results.{IsResult};
ghost use Rattle.redo_run.specs.Exits.{IsExitOf, fails, is_made};

use redo_names::PathSet;
use redo_past::RunReport;
use redo_path::Path;
use redo_record::Outcome;
use redo_report::Row;
use std::alloc::{AllocError, Global};

/// Whether every requested path is a source or built.
#[derive(Clone, Copy, Debug, PartialEq, Eq)]
pub enum Exit {
    Good,
    SomeFailed,
}

/// Whether an outcome is source or built.
fn is_made_by(outcome: &Outcome) -> bool
    ensures { result ≡ is_made outcome.now }
{
    matches!(outcome, Outcome::Source | Outcome::Built(_))
}

/// Whether one of these paths has a row that is neither source nor built.
fn has_failed(wanted: &PathSet, rows: &[Row]) -> bool
    ensures { result ≡ list_any (fails wanted.now) rows.now }
{
    rows.iter().any(|row| !is_made_by(&row.outcome) && wanted.contains(&row.path))
}

/// Whether every requested path is a source or built.
pub(crate) fn exit_after(
    alloc: Global,
    report: &RunReport,
    request: &[Path],
) -> Result<Exit, AllocError>
    ensures { (given : GivenView) → given.request ≡ request.now → IsResult given report.now →
        IfOk result (IsExitOf given) }
{
    let wanted = PathSet::of_paths(alloc, request)?;
    if has_failed(&wanted, report.rows()) {
        Ok(Exit::SomeFailed)
    } else {
        Ok(Exit::Good)
    }
}

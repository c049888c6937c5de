//! The report of a table in which nothing more can happen.
ghost use Rattle.std.specs.Prelude.{◌≡◌, ◌++◌, [], true, All, IfOk, OnOk, length};
ghost use Rattle.std.specs.Arc.{arc_value};
ghost use Rattle.redo_record.specs.declared.outcome.Outcome.TheVariants.{Source};
ghost use Rattle.redo_core.specs.inside.Reported.{AreReported, sources_among, listed_paths, IsNumberOf, is_settled, IsShown};
ghost use Rattle.redo_core.specs.inside.Reported.{IsBegunAs, IsRowOf, IsTold, AllSettled, AllTold, AddsRow, IsReportOf};

use crate::given::Given;
use crate::table::{Stage, Table, find};
use redo_names::PathSet;
use redo_path::Path;
use redo_record::{Outcome, Record};
use redo_report::{Report, Row};
use redo_tree::Tree;
use std::alloc::{AllocError, Global};
use std::sync::Arc;

/// The report of the targets of a table and of the requested sources. What still waits is cyclic.
pub(crate) fn report_of(alloc: Global, given: &Given, table: &Table) -> Result<Report, AllocError>
    requires one_each { length table.now.slots.items ≡ length table.now.targets }
    requires settled { AllSettled table.now }
    requires told { AllTold given.now table.now }
    ensures { IfOk result (IsReportOf given.now table.now) }
{
    let listed = in_order(alloc, given.sources(), given.request(), &table.targets)?;
    let count = listed.len();
    let mut report = Report {
        rows: Vec::with_capacity(alloc, count)?,
        files: Vec::with_capacity(alloc, count)?,
        begun: Vec::with_capacity(alloc, count)?,
    };
    for &(path, at) in &listed {
        let (row, begun) = row_of(alloc, given, table, path, at)?;
        add_row(row, begun, &mut report)?;
    }
    Ok(report)
}

/// The targets and the requested sources in path order, each once, with the numbers of the targets.
fn in_order<'a>(
    alloc: Global,
    tree: &Tree,
    request: &'a [Path],
    targets: &'a PathSet,
) -> Result<Vec<(&'a Path, Option<usize>)>, AllocError>
    ensures paths { IfOk result (λ listed.
        AreReported tree.now request.now targets.now (listed_paths listed.items)) }
    ensures numbers { IfOk result (λ listed. All (λ e. IsNumberOf targets.now e.0.now e.1) listed.items) }
{
    let mut listed = numbered(alloc, targets.as_slice())?;
    add_sources(tree, request, targets, &mut listed)?;
    listed.sort_unstable_by_key(|entry| entry.0);
    listed.dedup_by(|entry, kept| entry.0 == kept.0);
    Ok(listed)
}

/// The targets, each with its number.
fn numbered(alloc: Global, targets: &[Path]) -> Result<Vec<(&Path, Option<usize>)>, AllocError>
    ensures paths { IfOk result (λ listed. listed_paths listed.items ≡ targets.now) }
    ensures numbers { IfOk result (λ listed. All (λ e. IsNumberOf targets.now e.0.now e.1) listed.items) }
{
    let mut listed = Vec::with_capacity(alloc, targets.len())?;
    for (at, path) in targets.iter().enumerate() {
        listed.push((path, Some(at)))?;
    }
    Ok(listed)
}

/// Adds the paths that are sources.
// Nothing here rules out that a source is a target too, so each is looked up.
fn add_sources<'a>(
    tree: &Tree,
    request: &'a [Path],
    targets: &PathSet,
    listed: &mut Vec<(&'a Path, Option<usize>)>,
) -> Result<(), AllocError>
    requires { All (λ e. IsNumberOf targets.now e.0.now e.1) listed.old.items }
    ensures paths { OnOk result (listed_paths listed.new.items ≡
        listed_paths listed.old.items ++ sources_among tree.now request.now) }
    ensures numbers { OnOk result (All (λ e. IsNumberOf targets.now e.0.now e.1) listed.new.items) }
{
    for path in request {
        if tree.file(path).is_some() {
            listed.push((path, find(targets, path)))?;
        }
    }
    Ok(())
}

/// The row of a path, and whether its script was begun. The path is the target of this number, or else a source.
fn row_of(
    alloc: Global,
    given: &Given,
    table: &Table,
    path: &Path,
    at: Option<usize>,
) -> Result<(Row, bool), AllocError>
    requires one_each { length table.now.slots.items ≡ length table.now.targets }
    requires settled { AllSettled table.now }
    requires told { AllTold given.now table.now }
    requires number { IsNumberOf table.now.targets path.now at }
    ensures row { IfOk result (λ told. IsRowOf given.now table.now told.0 told.1) }
    ensures path { IfOk result (λ told. told.0.path ≡ path.now) }
{
    let Some(at) = at else {
        return Ok((source_row(alloc, path)?, false));
    };
    let stage = &table.slots[at].stage;
    let (outcome, deps) = came_to(alloc, given, stage)?;
    let begun = was_begun(stage);
    let path = path.clone()?;
    Ok((
        Row {
            path,
            outcome,
            deps,
        },
        begun,
    ))
}

/// The row of a source.
fn source_row(alloc: Global, path: &Path) -> Result<Row, AllocError>
    ensures path { IfOk result (λ row. row.path ≡ path.now) }
    ensures outcome { IfOk result (λ row. row.outcome ≡ Source) }
    ensures deps { IfOk result (λ row. arc_value row.deps ≡ []) }
{
    Ok(Row {
        path: path.clone()?,
        outcome: Outcome::Source,
        deps: Arc::new(alloc, Record::none(alloc))?,
    })
}

/// Whether the script of a target that waits or is decided was begun.
fn was_begun(stage: &Stage) -> bool
    requires { is_settled stage.now ≡ true }
    ensures { IsBegunAs stage.now result }
{
    match stage {
        Stage::Decided(fact) => {
            let fact = fact.read();
            fact.is_decided();
            fact.was_begun()
        }
        Stage::Waiting(_) => true,
        Stage::Checking(_) => false,
        Stage::Due(_) | Stage::Ready(_) | Stage::Out => unreachable!(),
    }
}

/// The outcome of a target, and its record.
fn came_to(
    alloc: Global,
    given: &Given,
    stage: &Stage,
) -> Result<(Outcome, Arc<Record>), AllocError>
    requires settled { is_settled stage.now ≡ true }
    requires told { IsTold given.now stage.now }
    ensures { IfOk result (λ shown. IsShown given.now stage.now shown.0 (arc_value shown.1)) }
{
    match stage {
        Stage::Decided(fact) => {
            let fact = fact.read();
            Ok((copied(fact.outcome())?, Arc::try_clone(fact.deps())?))
        }
        Stage::Waiting(begun) => Ok((Outcome::Cyclic, Arc::new(alloc, begun.job.record()?)?)),
        Stage::Checking(awaiting) => {
            let seen = awaiting.held.check.seen(alloc, given)?;
            Ok((Outcome::Cyclic, Arc::new(alloc, seen)?))
        }
        Stage::Due(_) | Stage::Ready(_) | Stage::Out => unreachable!(),
    }
}

/// The same outcome. Its bytes are shared.
fn copied(outcome: &Outcome) -> Result<Outcome, AllocError>
    ensures { IfOk result (λ copy. copy ≡ outcome.now) }
{
    match outcome {
        Outcome::Source => Ok(Outcome::Source),
        Outcome::Built(None) => Ok(Outcome::Built(None)),
        Outcome::Built(Some(content)) => Ok(Outcome::Built(Some(content.clone()?))),
        Outcome::Failed(why) => Ok(Outcome::Failed(*why)),
        Outcome::Cyclic => Ok(Outcome::Cyclic),
    }
}

/// Adds a row, with its file if it was built with one, and its path if its script was begun.
fn add_row(row: Row, begun: bool, report: &mut Report) -> Result<(), AllocError>
    ensures { OnOk result (AddsRow row begun report.old report.new) }
{
    if let Outcome::Built(Some(content)) = &row.outcome {
        report.files.push((row.path.clone()?, content.clone()?))?;
    }
    if begun {
        report.begun.push(row.path.clone()?)?;
    }
    report.rows.push(row)?;
    Ok(())
}

//! The diagnoses of a report.

ghost use Rattle.std.specs.Prelude.{◌≡◌, ◌++◌, All, Contains, IfOk, IfSome, None, OnOk, Some, map, take, true};
ghost use Rattle.std.specs.Arc.{arc_value};
ghost use Rattle.redo_names.specs.Paths.{IsAmong};
ghost use Rattle.redo_tree.specs.Tree.{file_at};
ghost use Rattle.redo_record.specs.Progress.{changes};
ghost use Rattle.redo_diagnose.specs.Diagnoses.{AreFirst, IsIn, IsInSource, MarksIn, MarksSource};
ghost use Rattle.redo_diagnose.specs.Diagnoses.{FailsFor, IsAskedAt, IsPlaced, IsScriptOf, MarksScript};
ghost use Rattle.redo_diagnose.specs.Diagnoses.{failures as failures_in};
ghost use Rattle.redo_diagnose.specs.Diagnoses.{own_reason as own_reason_of, reason_in, told_of, with_reason};
ghost use Rattle.redo_diagnose.specs.inside.Failures.{failure_of};

use crate::answers::Answered;
use crate::behind::{Behind, all_behind};
use crate::diagnosis::{Diagnosed, Diagnosis, Place};
use crate::ends::of_whole;
use crate::missing::{names, of_directory, of_no_directory, of_no_rule};
use crate::said::Said;
use crate::scripts::{Failed, Remark};
use redo_path::Path;
use redo_record::{DepKind, Outcome, Why};
use redo_report::{Report, Row};
use redo_step::Limits;
use redo_tree::Tree;
use redo_which::Found;
use redo_which::lookup::find;
use std::alloc::{AllocError, Global};

/// A target that failed for a reason of its own.
#[derive(Clone, Copy)]
struct Failure<'a> {
    target: &'a Path,
    why: Why,
}

/// A target's own reason; `None` if another one failed.
fn own_reason(why: Why) -> Option<Why>
    ensures { result ≡ own_reason_of why }
{
    match why {
        Why::Depends(_) => None,
        _ => Some(why),
    }
}

/// The own reason of a path that failed.
fn reason_of(outcome: &Outcome) -> Option<Why>
    ensures { result ≡ reason_in outcome.now }
{
    match outcome {
        Outcome::Failed(why) => own_reason(*why),
        Outcome::Source | Outcome::Built(_) | Outcome::Cyclic => None,
    }
}

/// Adds the failure of a row, if it has one.
fn add_failure<'a>(failures: &mut Vec<Failure<'a>>, row: &'a Row) -> Result<(), AllocError>
    ensures { OnOk result (map failure_of failures.new.items ≡
        map failure_of failures.old.items ++ with_reason row.now.path (reason_in row.now.outcome)) }
{
    match reason_of(&row.outcome) {
        Some(why) => {
            let target = &row.path;
            failures.push(Failure { target, why })?;
            Ok(())
        }
        None => Ok(()),
    }
}

/// The failures among some rows.
fn failures<'a>(alloc: Global, rows: &'a [Row]) -> Result<Vec<Failure<'a>>, AllocError>
    ensures { IfOk result (λ failures. map failure_of failures.items ≡ failures_in rows.now) }
{
    let mut failures = Vec::new(alloc);
    for row in rows {
        add_failure(&mut failures, row)?;
    }
    Ok(failures)
}

/// What a build was given, and what it came to.
#[derive(Drop)]
struct Built<'a> {
    sources: &'a Tree,
    limits: Limits,
    report: &'a Report,
    answers: Answered<'a>,
    behind: Behind,
    /// The names that a target without a rule may have been meant to have.
    names: Vec<&'a [u8]>,
}

/// Words without a place.
fn placeless(said: Said) -> Remark
    ensures { result.place ≡ None }
{
    Remark { place: None, said }
}

/// Whether the script of a row's target asks for a path.
fn asks_for(row: &Row, path: &Path) -> bool
    ensures { result ≡ true → IsAmong (changes (arc_value row.now.deps)) path.now }
{
    for dep in row.deps.parts().own {
        if matches!(dep.kind, DepKind::Change) && dep.path == *path {
            return true;
        }
    }
    false
}

/// The line in which the script of a row's target failed, if it did because of what it asks for, and asks for this path.
fn failed_for(row: &Row, path: &Path) -> Option<u64>
    ensures { IfSome result (FailsFor row.now path.now) }
{
    match &row.outcome {
        Outcome::Failed(Why::Depends(line)) if asks_for(row, path) => Some(*line),
        _ => None,
    }
}

impl Built<'_> {
    /// The row that was the first to ask for a target, if one has failed because of it.
    fn asker(&self, target: &Path) -> Option<&Row>
        ensures { IfSome result (λ row. Contains self.now.report.now.rows.items row.now) }
    {
        self.report.rows.get(self.behind.asker(target)?)
    }

    /// Where the first script asks for a target that failed because of it.
    fn asked_at(&self, alloc: Global, target: &Path) -> Result<Option<Place>, AllocError>
        ensures marks { IfOk result (λ place. IfSome place (MarksIn (file_at self.now.sources.now))) }
        ensures asked { IfOk result (λ place. IfSome place
            (IsAskedAt self.now.sources.now self.now.report.now.rows.items target.now)) }
    {
        let Some(asker) = self.asker(target) else {
            return Ok(None);
        };
        match failed_for(asker, target) {
            Some(line) => self.asked_in(alloc, &asker.path, line),
            None => Ok(None),
        }
    }

    /// The script of a target, and what it is given; `None` if there is none.
    fn script_of<'s>(
        &'s self,
        alloc: Global,
        target: &'s Path,
    ) -> Result<Option<Failed<'s>>, AllocError>
        ensures text { IfOk result (λ found. IfSome found (λ failed.
            file_at self.now.sources.now failed.rule.do_file ≡ Some failed.text.now)) }
        ensures script { IfOk result (λ found. IfSome found (λ failed.
            IsScriptOf self.now.sources.now target.now failed.rule.do_file)) }
    {
        let Found::Rule(rule) = find(alloc, self.sources, target)? else {
            return Ok(None);
        };
        let Some(text) = self.sources.file(&rule.do_file) else {
            return Ok(None);
        };
        Ok(Some(Failed {
            sources: self.sources,
            target,
            rule,
            text,
            limits: self.limits,
        }))
    }

    /// Where the script of a target, which failed in this line, asks for what it waits for.
    fn asked_in(&self, alloc: Global, target: &Path, line: u64) -> Result<Option<Place>, AllocError>
        ensures marks { IfOk result (λ place. IfSome place (MarksIn (file_at self.now.sources.now))) }
        ensures line { IfOk result (λ place. IfSome place (λ place. place.line ≡ line)) }
        ensures script { IfOk result (λ place. IfSome place (λ place.
            IsScriptOf self.now.sources.now target.now place.file)) }
    {
        match self.script_of(alloc, target)? {
            Some(failed) => failed.asked(alloc, &self.answers, Why::Depends(line)),
            None => Ok(None),
        }
    }

    /// What is said of a script that failed with this reason.
    fn of_text(&self, alloc: Global, failed: &Failed<'_>, why: Why) -> Result<Remark, AllocError>
        ensures { IfOk result (λ found. IfSome found.place (IsIn failed.now.rule.do_file failed.now.text.now why)) }
    {
        match why {
            Why::Script(fault) => failed.fault(alloc, &fault),
            _ => failed.ended(alloc, &self.answers, why),
        }
    }

    /// What is said of a target whose script failed with this reason.
    fn of_script(&self, alloc: Global, target: &Path, why: Why) -> Result<Remark, AllocError>
        ensures marks { IfOk result (λ found. IfSome found.place (IsInSource (file_at self.now.sources.now) why)) }
        ensures script { IfOk result (λ found. IfSome found.place (λ place.
            IsScriptOf self.now.sources.now target.now place.file)) }
    {
        match self.script_of(alloc, target)? {
            Some(failed) => self.of_text(alloc, &failed, why),
            None => Ok(placeless(of_whole(alloc, why)?)),
        }
    }

    /// What is said of a target without a script. The place is that of the word by which a script asks for it.
    fn of_no_script(&self, alloc: Global, failure: &Failure<'_>) -> Result<Remark, AllocError>
        ensures marks { IfOk result (λ found. IfSome found.place (MarksIn (file_at self.now.sources.now))) }
        ensures asked { IfOk result (λ found. IfSome found.place
            (IsAskedAt self.now.sources.now self.now.report.now.rows.items failure.now.target.now)) }
    {
        let target = failure.target;
        let said = match failure.why {
            Why::NoRule => of_no_rule(alloc, self.sources, &self.names, target)?,
            Why::NoDirectory => of_no_directory(alloc, self.sources, target)?,
            _ => of_directory(alloc)?,
        };
        let place = self.asked_at(alloc, target)?;
        Ok(Remark { place, said })
    }

    /// What is said of a failure.
    fn found(&self, alloc: Global, failure: &Failure<'_>) -> Result<Remark, AllocError>
        ensures marks { IfOk result (λ found. IfSome found.place (IsInSource (file_at self.now.sources.now) failure.now.why)) }
        ensures placed { IfOk result (λ found. IfSome found.place
            (IsPlaced self.now.sources.now self.now.report.now.rows.items failure.now.target.now failure.now.why)) }
    {
        match failure.why {
            Why::NoRule | Why::Directory | Why::NoDirectory => self.of_no_script(alloc, failure),
            why => self.of_script(alloc, failure.target, why),
        }
    }

    /// The diagnosis of a failure.
    fn diagnosis(&self, alloc: Global, failure: &Failure<'_>) -> Result<Diagnosis, AllocError>
        ensures told { IfOk result (λ d. told_of d ≡ failure_of failure.now) }
        ensures marks { IfOk result (MarksSource (file_at self.now.sources.now)) }
        ensures placed { IfOk result (MarksScript self.now.sources.now self.now.report.now.rows.items) }
    {
        let Remark { place, said } = self.found(alloc, failure)?;
        let Said { message, help, .. } = said;
        Ok(Diagnosis {
            target: failure.target.clone()?,
            why: failure.why,
            place,
            message,
            help,
            waiting: self.behind.waiting(failure.target),
        })
    }

    /// The diagnoses of some failures.
    fn diagnoses(
        &self,
        alloc: Global,
        failures: &[Failure<'_>],
    ) -> Result<Vec<Diagnosis>, AllocError>
        ensures told { IfOk result (λ ds. map told_of ds.items ≡ map failure_of failures.now) }
        ensures marks { IfOk result (λ ds. All (MarksSource (file_at self.now.sources.now)) ds.items) }
        ensures placed { IfOk result (λ ds.
            All (MarksScript self.now.sources.now self.now.report.now.rows.items) ds.items) }
    {
        let mut diagnoses = Vec::with_capacity(alloc, failures.len())?;
        for failure in failures {
            diagnoses.push(self.diagnosis(alloc, failure)?)?;
        }
        Ok(diagnoses)
    }
}

/// The first of some failures, at most so many.
fn first<'a, 'f>(failures: &'f [Failure<'a>], most: usize) -> &'f [Failure<'a>]
    ensures { result.now ≡ take most failures.now }
{
    if failures.len() <= most {
        return failures;
    }
    &failures[..most]
}

/// Whether a failure is that of a target without a rule.
fn has_no_rule(failure: &Failure<'_>) -> bool {
    matches!(failure.why, Why::NoRule)
}

/// The names that targets may have been meant to have, if one of these has no rule.
fn names_for<'a>(
    alloc: Global,
    failures: &[Failure<'_>],
    sources: &'a Tree,
    report: &'a Report,
) -> Result<Vec<&'a [u8]>, AllocError> {
    if failures.iter().any(has_no_rule) {
        names(alloc, sources, report)
    } else {
        Ok(Vec::new(alloc))
    }
}

/// The diagnoses of the first `most` targets of a report that failed for reasons of their own, in the report's order.
///
/// `sources` are those that the build had, which the past of its tree has, and `limits` are its limits. Each script is
/// read, and run, once more: call it for messages alone.
pub fn diagnoses(
    alloc: Global,
    sources: &Tree,
    limits: Limits,
    report: &Report,
    most: usize,
) -> Result<Diagnosed, AllocError>
    ensures first { IfOk result (AreFirst report.now.rows.items most) }
    ensures marks { IfOk result (λ diagnosed.
        All (MarksSource (file_at sources.now)) diagnosed.diagnoses.items) }
    ensures placed { IfOk result (λ diagnosed.
        All (MarksScript sources.now report.now.rows.items) diagnosed.diagnoses.items) }
{
    let failures = failures(alloc, &report.rows)?;
    let first = first(&failures, most);
    let built = Built {
        sources,
        limits,
        report,
        answers: Answered::of(alloc, &report.rows)?,
        behind: all_behind(alloc, &report.rows)?,
        names: names_for(alloc, first, sources, report)?,
    };
    let diagnoses = built.diagnoses(alloc, first)?;
    Ok(Diagnosed {
        diagnoses,
        more: failures.len() - first.len(),
    })
}

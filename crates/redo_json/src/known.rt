//! What is known of the paths of rows.

ghost use Rattle.std.specs.Prelude.{◌≡◌, IfOk, List, None, OnOk, Some, bytes_eq, cond, map, option_copied, ℕ};
ghost use Rattle.std.specs.Prelude.{option_map};
ghost use Rattle.std.specs.Map.{lookup};
ghost use Rattle.std.specs.Option.{option_or};
ghost use Rattle.redo_explain.specs.Views.{begun_view, reason_view};
ghost use Rattle.redo_json.specs.Told.{known_of};
ghost use Rattle.redo_json.specs.inside.Known.{AreDiagnosesOf, AreReasonsOf, known_by};

use redo_diagnose::Diagnosis;
use redo_explain::{Begun, Reason};
use redo_names::{PathMap, PathSet};
use redo_past::Past;
use redo_path::Path;
use redo_report::Row;
use redo_told::failed_paths;
use redo_tree::Tree;
use std::alloc::{AllocError, Global};

/// The reasons of begun scripts, by their targets.
pub(crate) type Reasons<'a> = PathMap<Reason<'a>>;

/// Diagnoses, by their targets.
pub(crate) type Diagnoses<'a> = PathMap<&'a Diagnosis>;

/// What is known of the paths of rows.
#[derive(Drop)]
pub(crate) struct Known<'a> {
    pub(crate) sources: &'a Tree,
    /// The tree as it was read.
    pub(crate) before: &'a Tree,
    pub(crate) reasons: Reasons<'a>,
    pub(crate) diagnoses: Diagnoses<'a>,
    /// The paths of the rows that failed or are cyclic.
    pub(crate) failed: PathSet,
}

impl<'a> Known<'a> {
    /// By the past and the rows of a build, its begun scripts and its diagnoses.
    pub(crate) fn of(
        alloc: Global,
        past: &'a Past,
        rows: &[Row],
        begun: &[Begun<'a>],
        diagnoses: &'a [Diagnosis],
    ) -> Result<Known<'a>, AllocError>
        ensures { IfOk result (λ known.
            known_by known ≡ known_of past.now rows.now (map begun_view begun.now) diagnoses.now) }
    {
        let reasons = reasons_of(alloc, begun)?;
        let diagnoses = diagnoses_of(alloc, diagnoses)?;
        let failed = failed_paths(alloc, rows)?;
        Ok(Known {
            sources: past.sources(),
            before: past.tree(),
            reasons,
            diagnoses,
            failed,
        })
    }

    /// The reason for which the script of a path was begun, if it was.
    pub(crate) fn reason(&self, path: &Path) -> Option<&Reason<'a>>
        ensures { option_map reason_view (option_copied result) ≡ (known_by self.now).reason path.now }
    {
        self.reasons.get(path)
    }

    /// The diagnosis of a path, if it has one.
    pub(crate) fn diagnosis(&self, path: &Path) -> Option<&Diagnosis>
        ensures { option_copied result ≡ (known_by self.now).diagnosis path.now }
    {
        match self.diagnoses.get(path) {
            Some(diagnosis) => Some(*diagnosis),
            None => None,
        }
    }
}

/// Puts in a value for a path, unless it has one.
fn put_first<T: Drop>(values: &mut PathMap<T>, path: &Path, value: T) -> Result<(), AllocError>
    ensures { OnOk result ((q : List ℕ) → lookup (bytes_eq q) values.new ≡
        option_or (lookup (bytes_eq q) values.old) (cond (bytes_eq q path.now) (Some value) None)) }
{
    if values.get(path).is_none() {
        values.insert(path.clone()?, value)?;
    }
    Ok(())
}

/// The reasons of these begun scripts, by their targets. The first one of a target counts.
fn reasons_of<'a>(alloc: Global, begun: &[Begun<'a>]) -> Result<Reasons<'a>, AllocError>
    ensures { IfOk result (λ reasons. AreReasonsOf (map begun_view begun.now) reasons) }
{
    let mut reasons = PathMap::new(alloc);
    for script in begun {
        put_first(&mut reasons, script.target, script.reason)?;
    }
    Ok(reasons)
}

/// These diagnoses, by their targets. The first one of a target counts.
fn diagnoses_of<'a>(alloc: Global, diagnoses: &'a [Diagnosis]) -> Result<Diagnoses<'a>, AllocError>
    ensures { IfOk result (λ found. AreDiagnosesOf diagnoses.now found) }
{
    let mut found = PathMap::new(alloc);
    for diagnosis in diagnoses {
        put_first(&mut found, &diagnosis.target, diagnosis)?;
    }
    Ok(found)
}

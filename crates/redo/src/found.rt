//! What is found of a build beside its report: what is stale.

use crate::after::Built;
use crate::status;
use redo_clean::CleanPlan;
use redo_dead::dead_plan;
use redo_line::BuildOptions;
use redo_notes::{Notes, notes};
use redo_path::Path;
use redo_run::DEFAULT_TARGET;
use std::alloc::{AllocError, Global};

/// What is found of a build beside its report.
#[derive(Drop)]
pub(crate) struct Found {
    pub(crate) notes: Notes,
    /// The built files that this build doesn't need, in path order; none unless it is a good build of `all`.
    pub(crate) dead: Vec<Path>,
    /// Whether `--strict` isn't given, or has nothing to refuse.
    pub(crate) is_fine: bool,
}

impl Found {
    /// The exit status of the build.
    pub(crate) fn status(&self, built: &Built<'_>) -> u8 {
        status::of_good(built.good && self.is_fine)
    }
}

/// Finds the built files that this build doesn't need. There are none unless it is a good build of `all`: other builds
/// may need them, and what a failed target needs isn't known.
fn dead_of(
    alloc: Global,
    build: &BuildOptions,
    built: &Built<'_>,
) -> Result<Vec<Path>, AllocError> {
    let is_of_all = build
        .targets
        .iter()
        .any(|target| target.text() == DEFAULT_TARGET);
    if !built.good || !is_of_all {
        return Ok(Vec::new(alloc));
    }
    let CleanPlan { generated, .. } = dead_plan(alloc, built.past, built.report)?;
    generated.into_iter().map(|file| file.0).collect(alloc)
}

/// Finds what there is beside a report.
pub(crate) fn find(
    alloc: Global,
    build: &BuildOptions,
    built: &Built<'_>,
) -> Result<Found, AllocError> {
    let notes = notes(alloc, built.past, &build.targets, built.report)?;
    let dead = dead_of(alloc, build, built)?;
    let is_fine = !build.strict || (notes.is_empty() && dead.is_empty() && !built.hides);
    Ok(Found {
        notes,
        dead,
        is_fine,
    })
}

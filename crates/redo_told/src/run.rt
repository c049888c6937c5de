//! A run.

use redo_path::Path;

/// What was asked for, by which program and when.
#[derive(Clone, Copy)]
pub struct RunInfo<'a> {
    /// The version of the program.
    pub version: &'a str,
    /// The directory that was built, as it was named; none over a bundle.
    pub directory: Option<&'a str>,
    /// The paths that were requested.
    pub request: &'a [Path],
    /// How many scripts may run side by side.
    pub jobs: usize,
    /// When the run began, such as `2026-11-30T18:02:11Z`, if that is known.
    pub began: Option<&'a str>,
    /// How long the build took, if that is known.
    pub milliseconds: Option<u64>,
}

//! Reports in other forms than their own.

use crate::after::{After, Built};
use crate::found::Found;
use crate::status::Fault;
use crate::version::VERSION;
use redo_bundle::{Plain, write_all};
use redo_diagnose::diagnoses;
use redo_dot::dot;
use redo_json::{Told as ToldAsJson, json};
use redo_line::{BuildOptions, Format, Input};
use redo_page::{Told, page};
use redo_rings::rings;
use redo_short::short_text;
use redo_told::RunInfo;
use std::alloc::{AllocError, Global};
use std::io;
use std::rt::Runtime;

/// Whether a form tells of the run, too: when it began, and how long it took.
pub(crate) fn tells_run(format: Format) -> bool {
    match format {
        Format::Json | Format::Html => true,
        Format::Report | Format::Short | Format::Dot(_) => false,
    }
}

/// The directory that a build was of, if it was of one.
fn directory_of(build: &BuildOptions) -> Option<&str> {
    match &build.input {
        Input::Bundle => None,
        Input::Directory(dir) => Some(dir.as_str()),
    }
}

/// What is told of the run.
fn run_of<'a>(after: &'a After<'_>) -> RunInfo<'a> {
    let build = after.build;
    let began = after.began.as_deref();
    RunInfo {
        version: VERSION,
        directory: directory_of(build),
        request: build.targets.as_slice(),
        jobs: build.workers,
        began,
        milliseconds: after.milliseconds,
    }
}

/// The report of a build with what is wrong in it: as a page, or else as JSON.
fn with_wrong(
    alloc: Global,
    after: &After<'_>,
    built: &Built<'_>,
    found: &Found,
) -> Result<Vec<u8>, AllocError> {
    let (build, run) = (after.build, run_of(after));
    let (sources, limits) = (built.past.sources(), build.limits);
    let diagnosed = diagnoses(alloc, sources, limits, built.report, usize::MAX)?;
    let rings = rings(alloc, built.report)?;
    let (status, request) = (found.status(built), build.targets.as_slice());
    let (diagnoses, rings) = (diagnosed.diagnoses.as_slice(), rings.as_slice());
    let notes = &found.notes;
    if build.format == Format::Html {
        let told = Told {
            status,
            run: &run,
            diagnoses,
            rings,
            notes,
        };
        return page(alloc, built.past, built.report, &told);
    }
    let told = ToldAsJson {
        status,
        run: &run,
        diagnoses,
        rings,
        notes,
        dead: found.dead.as_slice(),
    };
    json(alloc, built.past, built.report, &told)
}

/// The report of a build in another form than its own.
fn text_in(
    alloc: Global,
    after: &After<'_>,
    built: &Built<'_>,
    found: &Found,
) -> Result<Vec<u8>, AllocError> {
    match after.build.format {
        Format::Report => Ok(Vec::new(alloc)),
        Format::Short => short_text(alloc, built.report),
        Format::Dot(with_rules) => dot(alloc, built.report, with_rules),
        Format::Json | Format::Html => with_wrong(alloc, after, built, found),
    }
}

/// Prints the report of a build, where it is wanted in another form than its own.
pub(crate) fn print_report<H: Runtime>(
    rt: &H,
    alloc: Global,
    after: &After<'_>,
    built: &Built<'_>,
    found: &Option<Found>,
) -> Result<(), Fault> {
    let (Some(found), true) = (found, after.build.format != Format::Report) else {
        return Ok(());
    };
    let text = text_in(alloc, after, built, found)?;
    Ok(write_all(&mut Plain::new(io::writer(rt)), &text)?)
}

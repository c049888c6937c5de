//! The files that a build takes back: sources that have a rule.

use crate::after::{After, MOST_NOTES};
use crate::opening::past_in;
use crate::progress::Progress;
use crate::status::Fault;
use redo_diagnose::shown_lines;
use redo_dir::DirView;
use redo_line::{BuildOptions, Storing};
use redo_names::PathSet;
use redo_notes::shadowed_within;
use redo_path::Path;
use redo_report::Report;
use redo_run::{Cause, Host, Options};
use std::alloc::{AllocError, Global};
use std::rt::Runtime;
use std::thread::Threads;

/// The files that a build of this directory takes back.
fn taken_in<H: Runtime + Threads + Sync, D: DirView + Sync>(
    host: &Host<'_, H, Progress<'_>>,
    dir: &D,
    build: &BuildOptions,
    cause: &mut Cause,
) -> Result<Vec<Path>, Fault> {
    let (rt, alloc, workers) = (host.rt, host.alloc(), build.workers);
    if build.take.is_empty() {
        return Ok(Vec::new(alloc));
    }
    let (past, _) = past_in(rt, alloc, dir, workers, cause)?;
    Ok(shadowed_within(alloc, &past, &build.take)?)
}

/// The options of a build of this directory, with the files that it takes back.
pub(crate) fn options_for<H: Runtime + Threads + Sync, D: DirView + Sync>(
    host: &Host<'_, H, Progress<'_>>,
    dir: &D,
    build: &BuildOptions,
    cause: &mut Cause,
) -> Result<Options, Fault> {
    let taken = taken_in(host, dir, build, cause)?;
    Ok(options_of(build, taken)?)
}

/// The options of a build that takes back these files.
pub(crate) fn options_of(build: &BuildOptions, taken: Vec<Path>) -> Result<Options, AllocError> {
    Ok(Options {
        targets: build.targets.clone()?,
        taken,
        workers: build.workers,
        limits: build.limits,
    })
}

/// Which of some files a build made anew, by the report of it.
fn made_of<'a>(
    alloc: Global,
    taken: &'a [Path],
    report: &Report,
) -> Result<Vec<&'a Path>, AllocError> {
    let mut files = PathSet::new(alloc);
    for file in &report.files {
        files.insert(file.0.clone()?)?;
    }
    let mut made = Vec::new(alloc);
    for path in taken {
        if files.contains(path) {
            made.push(path)?;
        }
    }
    Ok(made)
}

/// A line for each file that is taken back, at most `most` of them, and how many more there are.
fn lines_of(
    alloc: Global,
    words: &str,
    taken: &[&Path],
    most: usize,
) -> Result<Vec<u8>, AllocError> {
    let mut text = Vec::new(alloc);
    for path in taken.iter().take(most) {
        text.extend_from_slice(words.as_bytes())?;
        text.extend_from_slice(path.text())?;
        text.push(b'\n')?;
    }
    if taken.len() > most {
        let more = taken.len() - most;
        text.extend_from_slice(format!(in alloc; "and {more} more like it\n")?.as_bytes())?;
    }
    Ok(text)
}

/// Says which files a build took back, and in a dry run all that it would take back.
pub(crate) fn say_taken<H: Runtime>(
    rt: &H,
    alloc: Global,
    after: &After<'_>,
    taken: &[Path],
    report: &Report,
) -> Result<(), AllocError> {
    let is_tried = after.build.storing == Storing::Nothing;
    if after.build.take.is_empty() || !(is_tried || after.voice.notes) {
        return Ok(());
    }
    let made = made_of(alloc, taken, report)?;
    if made.is_empty() {
        let words = b"nothing is taken back: this build makes no source at or below these paths";
        after.voice.note(rt, words);
        return Ok(());
    }
    let (words, most) = if is_tried {
        ("would take back ", usize::MAX)
    } else {
        ("takes back ", MOST_NOTES)
    };
    let text = lines_of(alloc, words, &made, most)?;
    after.voice.note(rt, &shown_lines(alloc, &text)?);
    Ok(())
}

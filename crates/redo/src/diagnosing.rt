//! What is wrong with failed targets, shown on standard error after the report.

use crate::after::After;
use bstr::BStr;
use redo_diagnose::{
    Diagnosed, Diagnosis, Echo, Stand, diagnoses, echoes, shown_lines, text_of, text_of_rings,
};
use redo_line::{BuildOptions, Input};
use redo_past::Past;
use redo_record::{Outcome, Why};
use redo_report::Report;
use redo_rings::rings;
use redo_tree::{Kind, Tree};
use std::alloc::{AllocError, Global};
use std::fs;
use std::path::Path as SystemPath;
use std::rt::Runtime;

/// At most this many diagnoses are shown, as many cycles, and as many scripts that misuse `echo`.
const MOST: usize = 20;

/// At most this many are made: several may be of one fault.
const MOST_MADE: usize = 1_000;

/// Whether there is a link at a path of a directory. What can't be looked at counts as none.
fn is_link<H: Runtime>(rt: &H, alloc: Global, dir: &str, path: &[u8]) -> bool {
    let Ok(path) = str::from_utf8(path) else {
        return false;
    };
    let Ok(place) = SystemPath::new(dir).join(alloc, path) else {
        return false;
    };
    match fs::symlink_metadata(rt, place.as_path()) {
        Ok(about) => about.is_symlink(),
        Err(_) => false,
    }
}

/// The link at a path or on the way to it, the first from the top, if there is one.
fn link_to<'p, H: Runtime>(
    rt: &H,
    alloc: Global,
    dir: &str,
    tree: &Tree,
    path: &'p [u8],
) -> Option<&'p [u8]> {
    for (at, byte) in path.iter().enumerate() {
        if *byte == b'/' && tree.kind_by_text(&path[..at]) != Kind::Dir {
            let front = &path[..at];
            return if is_link(rt, alloc, dir, front) {
                Some(front)
            } else {
                None
            };
        }
    }
    if is_link(rt, alloc, dir, path) {
        Some(path)
    } else {
        None
    }
}

/// Has a diagnosis name the link that hides its target from redo, if there is one.
fn blame_link<H: Runtime>(
    rt: &H,
    alloc: Global,
    dir: &str,
    tree: &Tree,
    diagnosis: &mut Diagnosis,
) -> Result<(), AllocError> {
    if !matches!(diagnosis.why, Why::NoRule | Why::NoDirectory) {
        return Ok(());
    }
    let Some(link) = link_to(rt, alloc, dir, tree, diagnosis.target.text()) else {
        return Ok(());
    };
    let shown = shown_lines(alloc, link)?;
    let name = BStr::new(shown.trim_ascii_end());
    let message = format!(in alloc; "`{name}` is a link, and redo follows none below the top")?;
    diagnosis.message.clear();
    diagnosis.message.extend_from_slice(message.as_bytes())?;
    diagnosis.help.clear();
    diagnosis
        .help
        .extend_from_slice(b"put the files themselves there")
}

/// What is wrong with the first failed targets.
fn find_diagnoses<H: Runtime>(
    rt: &H,
    alloc: Global,
    build: &BuildOptions,
    past: &Past,
    report: &Report,
) -> Result<Diagnosed, AllocError> {
    let limits = build.limits;
    let mut diagnosed = diagnoses(alloc, past.sources(), limits, report, MOST_MADE)?;
    if let Input::Directory(dir) = &build.input {
        for diagnosis in diagnosed.diagnoses.iter_mut() {
            blame_link(rt, alloc, dir, past.sources(), diagnosis)?;
        }
    }
    Ok(diagnosed)
}

/// From where places are read.
fn stand_of(build: &BuildOptions) -> Stand<'_> {
    Stand {
        to_top: build.to_top.as_slice(),
        below: &build.below,
    }
}

/// Whether there is something wrong with a target.
fn has_faults(report: &Report) -> bool {
    report.rows.iter().any(|row| matches!(row.outcome, Outcome::Failed(_) | Outcome::Cyclic))
}

/// Shows what is wrong with the first failed targets, and the first cycles.
pub(crate) fn say_diagnoses<H: Runtime>(
    rt: &H,
    alloc: Global,
    after: &After<'_>,
    past: &Past,
    report: &Report,
) -> Result<(), AllocError> {
    if !has_faults(report) {
        return Ok(());
    }
    let build = after.build;
    let diagnosed = find_diagnoses(rt, alloc, build, past, report)?;
    let text = text_of(alloc, &stand_of(build), &diagnosed, MOST)?;
    after.voice.diagnose(rt, &text);
    let text = text_of_rings(alloc, &rings(alloc, report)?, MOST)?;
    after.voice.diagnose(rt, &text);
    Ok(())
}

/// Says that an `echo` prints a word that was meant as an option.
fn say_echo<H: Runtime>(
    rt: &H,
    alloc: Global,
    after: &After<'_>,
    echo: &Echo,
) -> Result<(), AllocError> {
    let file = shown_lines(alloc, echo.file.text())?;
    let file = BStr::new(file.trim_ascii_end());
    let (line, option) = (echo.line, BStr::new(&echo.option));
    let words = format!(in alloc;
        "{file}:{line}: echo takes no options and prints {option}; printf prints without a newline"
    )?;
    after.voice.note(rt, words.as_bytes());
    Ok(())
}

/// Says where the first begun scripts print a word that was meant as an option.
pub(crate) fn say_echoes<H: Runtime>(
    rt: &H,
    alloc: Global,
    after: &After<'_>,
    past: &Past,
    report: &Report,
) -> Result<(), AllocError> {
    let echoes = echoes(alloc, past.sources(), report)?;
    for (number, echo) in echoes.iter().enumerate() {
        if number < MOST {
            say_echo(rt, alloc, after, echo)?;
        }
    }
    Ok(())
}

/// The target of a script of its own name.
fn made_by(script: &[u8]) -> Option<&[u8]> {
    let target = script.strip_suffix(b".do".as_slice())?;
    let at = target
        .iter()
        .rposition(|byte| *byte == b'/')
        .map_or(0, |at| at.saturating_add(1));
    let name = &target[at.min(target.len())..];
    if name.is_empty() || name == b"default".as_slice() || name.starts_with(b"default.") {
        return None;
    }
    Some(target)
}

/// Says that a requested script is a source: its target may be meant.
pub(crate) fn say_scripts<H: Runtime>(
    rt: &H,
    alloc: Global,
    after: &After<'_>,
    report: &Report,
) -> Result<(), AllocError> {
    for row in &report.rows {
        let is_source = matches!(row.outcome, Outcome::Source);
        if let (true, Some(target)) = (is_source, made_by(row.path.text())) {
            let script = shown_lines(alloc, row.path.text())?;
            let script = BStr::new(script.trim_ascii_end());
            let target = shown_lines(alloc, target)?;
            let target = BStr::new(target.trim_ascii_end());
            let words = format!(in alloc;
                "{script}: a script is a source; did you mean `{target}`?"
            )?;
            after.voice.note(rt, words.as_bytes());
        }
    }
    Ok(())
}

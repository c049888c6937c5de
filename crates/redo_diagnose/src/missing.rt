//! What is said of targets without a script.

use crate::near::nearest_word;
use crate::said::{Said, push_quoted};
use crate::shown::push_shown;
use redo_path::{Path, resolve};
use redo_report::Report;
use redo_tree::{Entry, Kind, Tree};
use redo_which::lookup::{find, search};
use redo_which::{Found, Search};
use std::alloc::{AllocError, Global};

/// So many candidates are told at most.
const MOST_CANDIDATES: usize = 4;

/// Adds names, with commas between them.
fn push_list(text: &mut Vec<u8>, paths: &[Path]) -> Result<(), AllocError> {
    for (at, path) in paths.iter().enumerate() {
        if at > 0 {
            text.extend_from_slice(b", ")?;
        }
        push_shown(text, path.text())?;
    }
    Ok(())
}

/// Adds the first of some candidates, and how many more there are.
fn push_candidates(alloc: Global, text: &mut Vec<u8>, paths: &[Path]) -> Result<(), AllocError> {
    if paths.len() <= MOST_CANDIDATES {
        return push_list(text, paths);
    }
    push_list(text, &paths[..MOST_CANDIDATES])?;
    let more = paths.len() - MOST_CANDIDATES;
    let words = format!(in alloc; " and {more} more")?;
    text.extend_from_slice(words.as_bytes())
}

/// The target that a .do file of its own name makes.
fn made_by(text: &[u8]) -> Option<&[u8]> {
    let target = text.strip_suffix(b".do")?;
    let name = match target.iter().rposition(|byte| *byte == b'/') {
        Some(at) => &target[at + 1..],
        None => target,
    };
    let is_default = name == b"default".as_slice() || name.starts_with(b"default.");
    if name.is_empty() || is_default {
        None
    } else {
        Some(target)
    }
}

/// The names that a target may have been meant to have: those of files, of targets with a .do file of their own, and of
/// targets that were built.
pub(crate) fn names<'a>(
    alloc: Global,
    sources: &'a Tree,
    report: &'a Report,
) -> Result<Vec<&'a [u8]>, AllocError> {
    let mut names = Vec::new(alloc);
    for (path, entry) in sources.in_order(alloc)? {
        if matches!(entry, Entry::File(_)) {
            names.push(path.text())?;
            if let Some(target) = made_by(path.text()) {
                names.push(target)?;
            }
        }
    }
    for row in &report.rows {
        if !row.outcome.has_failed() {
            names.push(row.path.text())?;
        }
    }
    Ok(names)
}

/// What is said of a target without a rule, where it may have been meant to have one of these names.
pub(crate) fn of_no_rule(
    alloc: Global,
    sources: &Tree,
    names: &[&[u8]],
    target: &Path,
) -> Result<Said, AllocError> {
    let Search { missing, .. } = search(alloc, sources, target)?;
    let mut said = Said::words(alloc, b"no rule", b"write one of these, or the file itself")?;
    match missing.as_slice() {
        [] => {
            said.message
                .extend_from_slice(b" makes .do files, the book or the journal")?;
            said.help.clear();
        }
        [_] => {
            said.message.extend_from_slice(b": ")?;
            push_candidates(alloc, &mut said.message, &missing)?;
            said.message.extend_from_slice(b" isn't there")?;
        }
        _ => {
            said.message.extend_from_slice(b": ")?;
            push_candidates(alloc, &mut said.message, &missing)?;
            said.message.extend_from_slice(b" aren't there")?;
        }
    }
    match nearest_word(alloc, target.text(), names)? {
        Some(name) => said.with_help(b"did you mean ", name, b"?"),
        None => Ok(said),
    }
}

/// What is said of a target that is a directory.
pub(crate) fn of_directory(alloc: Global) -> Result<Said, AllocError> {
    Said::words(alloc, b"it is a directory", b"ask for a file in it")
}

/// Whether something can be had at a path: a file, or what a rule makes.
fn can_be_had(alloc: Global, sources: &Tree, path: &Path) -> Result<bool, AllocError> {
    match find(alloc, sources, path)? {
        Found::Source | Found::Rule(_) => Ok(true),
        Found::Directory | Found::NoDirectory | Found::NoRule { .. } => Ok(false),
    }
}

/// The rest of a path that can be had if it is read from the top, where a word was written from another directory: that of
/// a script, which is there.
fn meant(alloc: Global, sources: &Tree, target: &Path) -> Result<Option<Path>, AllocError> {
    let text = target.text();
    for (at, byte) in text.iter().enumerate() {
        if *byte == b'/' && sources.kind_by_text(&text[..at]) == Kind::Dir {
            match resolve(alloc, &Path::root(), &text[at + 1..]) {
                Ok(path) if can_be_had(alloc, sources, &path)? => return Ok(Some(path)),
                _ => {}
            }
        }
    }
    Ok(None)
}

/// The directory of a path that isn't there: the first on the way from the top.
fn first_missing<'a>(sources: &Tree, target: &'a Path) -> &'a [u8] {
    let text = target.text();
    for (at, byte) in text.iter().enumerate() {
        if *byte == b'/' && sources.kind_by_text(&text[..at]) != Kind::Dir {
            return &text[..at];
        }
    }
    text
}

/// What is said of a target whose directory isn't there.
pub(crate) fn of_no_directory(
    alloc: Global,
    sources: &Tree,
    target: &Path,
) -> Result<Said, AllocError> {
    let mut said = Said::words(alloc, b"", b"make it")?;
    let directory = first_missing(sources, target);
    if sources.kind_by_text(directory) == Kind::File {
        said.message.extend_from_slice(b"no directory: ")?;
        push_quoted(&mut said.message, directory)?;
        said.message.extend_from_slice(b" is a file")?;
        said.help.clear();
    } else {
        said.message.extend_from_slice(b"no directory ")?;
        push_quoted(&mut said.message, directory)?;
    }
    match meant(alloc, sources, target)? {
        Some(path) => {
            said.with_help(
                b"a script's words are read from its .do file's directory; did you mean ",
                path.text(),
                b" at the top?",
            )
        }
        None => Ok(said),
    }
}

//! Options behind `echo`, which has none: it prints them.

use redo_names::PathSet;
use redo_path::Path;
use redo_report::Report;
use redo_tree::Tree;
use std::alloc::{AllocError, Global};

/// An `echo` with what other shells take for an option.
#[derive(Debug, Drop)]
pub struct Echo {
    /// The .do file, from the top.
    pub file: Path,
    /// From 1.
    pub line: u64,
    /// What it prints first.
    pub option: Vec<u8>,
}

const OPTIONS: &[&[u8]] = &[b"-n", b"-e", b"-E", b"-ne", b"-en"];

/// Words behind which a command begins.
const OPENERS: &[&[u8]] = &[b"then", b"else", b"do"];

/// The first word of a text, and what is behind it.
fn split_word(text: &[u8]) -> (&[u8], &[u8]) {
    let text = text.trim_ascii_start();
    let end = text
        .iter()
        .position(|byte| byte.is_ascii_whitespace())
        .unwrap_or(text.len());
    text.split_at(end.min(text.len()))
}

/// The option behind an `echo` with which this piece of a line begins, between two semicolons.
fn option_in(piece: &[u8]) -> Option<&[u8]> {
    let (mut word, mut rest) = split_word(piece);
    if OPENERS.iter().any(|opener| *opener == word) {
        (word, rest) = split_word(rest);
    }
    if word != b"echo".as_slice() {
        return None;
    }
    let (option, _) = split_word(rest);
    if OPTIONS.iter().any(|known| *known == option) {
        Some(option)
    } else {
        None
    }
}

/// The first `echo` with an option in a script's text: its line, from 1, and the option.
fn first_in(text: &[u8]) -> Option<(u64, &[u8])> {
    for (number, line) in text.split(|byte| *byte == b'\n').enumerate() {
        for piece in line.split(|byte| *byte == b';') {
            if let Some(option) = option_in(piece) {
                return Some((number as u64 + 1, option));
            }
        }
    }
    None
}

/// Adds what is found in a script.
fn add(
    alloc: Global,
    echoes: &mut Vec<Echo>,
    sources: &Tree,
    file: &Path,
) -> Result<(), AllocError> {
    let Some(text) = sources.file(file) else {
        return Ok(());
    };
    let Some((line, option)) = first_in(text) else {
        return Ok(());
    };
    let mut word = Vec::new(alloc);
    word.extend_from_slice(option)?;
    echoes.push(Echo {
        file: file.clone()?,
        line,
        option: word,
    })?;
    Ok(())
}

/// The first `echo` with an option in each script that a build has begun.
pub fn echoes(alloc: Global, sources: &Tree, report: &Report) -> Result<Vec<Echo>, AllocError> {
    let mut seen = PathSet::new(alloc);
    let mut echoes = Vec::new(alloc);
    for row in &report.rows {
        if report.begun.binary_search(&row.path).is_err() {
            continue;
        }
        let Some(file) = row.deps.parts().do_file else {
            continue;
        };
        let (_, added) = seen.insert(file.clone()?)?;
        if added {
            add(alloc, &mut echoes, sources, file)?;
        }
    }
    Ok(echoes)
}

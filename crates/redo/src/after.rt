//! What standard error shows after the report of a build.

use crate::diagnosing::{say_diagnoses, say_echoes, say_scripts};
use crate::found::Found;
use crate::summary::{Counted, written};
use bstr::{BStr, ByteSlice};
use redo_diagnose::shown_lines;
use redo_explain::explain;
use redo_line::{BuildOptions, Format, Input, Storing, Voice, has_book, levels_to_book, say};
use redo_notes::text_of;
use redo_past::{Past, has_book as holds_book};
use redo_path::Path;
use redo_report::Report;
use redo_short::summary_words;
use redo_tree::Tree;
use std::alloc::{AllocError, Global};
use std::path::Path as SystemPath;
use std::rt::Runtime;

/// A build that has ended, and what to show of it.
#[derive(Drop)]
pub(crate) struct After<'a> {
    pub(crate) build: &'a BuildOptions,
    pub(crate) voice: Voice,
    /// When it began, if that is told and known.
    pub(crate) began: Option<String>,
    /// How long it took, if that is told and known.
    pub(crate) milliseconds: Option<u64>,
}

/// What a build came to.
#[derive(Drop)]
pub(crate) struct Built<'a> {
    /// The past of the tree that was built.
    pub(crate) past: &'a Past,
    /// The report without the new book.
    pub(crate) report: &'a Report,
    /// Whether every requested path is a source or built.
    pub(crate) good: bool,
    /// Whether a directory that may not be listed was taken for empty.
    pub(crate) hides: bool,
}

impl After<'_> {
    /// How much is said of what a run didn't see: a strict build shows why it fails.
    pub(crate) fn voice_of_notes(&self) -> Voice {
        Voice {
            notes: self.voice.notes || self.build.strict,
            ..self.voice
        }
    }

    /// Whether nothing is to be said.
    pub(crate) fn is_silent(&self) -> bool {
        let is_plain = self.build.format == Format::Report;
        let is_quiet = !self.voice.notes && !self.voice.summary;
        is_plain && is_quiet && !self.build.explained && !self.build.strict
    }
}

/// At most this many notes of a kind are shown.
pub(crate) const MOST_NOTES: usize = 10;

/// The path that leads this many levels up, 1 or more, such as `../..`.
pub(crate) fn way_up(alloc: Global, levels: usize) -> Result<Vec<u8>, AllocError> {
    let mut way = Vec::new(alloc);
    way.extend_from_slice(b"..")?;
    for _ in 1..levels {
        way.extend_from_slice(b"/..")?;
    }
    Ok(way)
}

/// The words that name the targets of a build of `all` on a command line, each after a blank; none for `all` alone.
fn words_of_request(alloc: Global, targets: &[Path]) -> Result<Vec<u8>, AllocError> {
    let mut words = Vec::new(alloc);
    if targets.len() > 1 {
        for target in targets {
            words.push(b' ')?;
            words.extend_from_slice(target.text())?;
        }
    }
    shown_lines(alloc, &words)
}

/// Says how many built files this build doesn't need, if any, and how to list and remove them.
fn note_dead<H: Runtime>(
    rt: &H,
    alloc: Global,
    after: &After<'_>,
    dead: usize,
) -> Result<(), AllocError> {
    if dead == 0 {
        return Ok(());
    }
    let (files, verb) = if dead == 1 {
        ("file", "is")
    } else {
        ("files", "are")
    };
    let words = words_of_request(alloc, &after.build.targets)?;
    let targets = BStr::new(words.trim_ascii_end());
    let text = format!(in alloc;
        "{dead} {files} that builds left {verb} needed no more; see redo --dead{targets}, and redo --clean --dead{targets}"
    )?;
    after.voice.note(rt, text.as_bytes());
    Ok(())
}

/// Says that a book stands above the directory, if one does, and what to do.
fn note_book_above<H: Runtime>(
    rt: &H,
    alloc: Global,
    after: &After<'_>,
    dir: &str,
) -> Result<(), AllocError> {
    let Some(levels) = levels_to_book(rt, alloc, dir) else {
        return Ok(());
    };
    let way = way_up(alloc, levels)?;
    let way = BStr::new(&way);
    let words = if has_book(rt, alloc, SystemPath::new(dir)) {
        format!(in alloc;
            "this is part of a tree that was built from {way}; remove .redo-book here, and say redo --top"
        )?
    } else {
        format!(in alloc; "this is part of a tree that was built from {way}; say redo --top")?
    };
    after.voice.note(rt, words.as_bytes());
    Ok(())
}

/// Warns of a directory's first book below another one, unless notes do: once the book is there, no run can tell that
/// it was made by mistake. Without memory for the words there is no warning.
pub(crate) fn warn_of_book_above<H: Runtime>(
    rt: &H,
    alloc: Global,
    after: &After<'_>,
    dir: &str,
    tree: &Tree,
) {
    if after.voice.warnings && !after.voice.notes && !holds_book(tree) {
        let _said = note_book_above(rt, alloc, after, dir);
    }
}

/// What a build wrote or would write, and how long it took.
fn say_end<H: Runtime>(rt: &H, after: &After<'_>, said: &str, files: u64, milliseconds: u64) {
    let seconds = milliseconds / 1_000;
    let hundredths = milliseconds % 1_000 / 10;
    let files = Counted(files, "file");
    let _shown = match (&after.build.input, after.build.storing) {
        (Input::Bundle, _) => eprintln!(rt; "{said}{seconds}.{hundredths:02} s"),
        (_, Storing::Nothing) => {
            eprintln!(rt; "{said}{files} to write; {seconds}.{hundredths:02} s")
        }
        _ => eprintln!(rt; "{said}{files} written; {seconds}.{hundredths:02} s"),
    };
}

/// Sums up a build in one line, with its time. Leaves out what standard output has shown already.
fn say_summary<H: Runtime>(
    rt: &H,
    alloc: Global,
    after: &After<'_>,
    built: &Built<'_>,
    milliseconds: u64,
) -> Result<(), AllocError> {
    let files = written(built.report, built.past.tree());
    if after.build.format == Format::Short {
        say_end(rt, after, "", files, milliseconds);
        return Ok(());
    }
    let summary = summary_words(alloc, built.report)?;
    let said = format!(in alloc; "{summary}; ")?;
    say_end(rt, after, said.as_str(), files, milliseconds);
    Ok(())
}

/// Shows what follows the report of a build.
pub(crate) fn say_after<H: Runtime>(
    rt: &H,
    alloc: Global,
    after: &After<'_>,
    built: &Built<'_>,
    found: &Found,
) -> Result<(), AllocError> {
    let (build, past, report) = (after.build, built.past, built.report);
    if build.explained {
        let text = explain(alloc, past, &build.targets, report)?;
        say(rt, &shown_lines(alloc, &text)?);
    }
    if after.voice.notes {
        say_diagnoses(rt, alloc, after, past, report)?;
    }
    if after.voice.notes || build.strict {
        let text = text_of(alloc, &found.notes, MOST_NOTES)?;
        after.voice.note(rt, &shown_lines(alloc, &text)?);
        note_dead(rt, alloc, after, found.dead.len())?;
    }
    if after.voice.notes {
        say_echoes(rt, alloc, after, past, report)?;
        say_scripts(rt, alloc, after, report)?;
    }
    if let (true, Input::Directory(dir)) = (after.voice.notes, &build.input) {
        note_book_above(rt, alloc, after, dir)?;
    }
    if let (true, Some(milliseconds)) = (after.voice.summary, after.milliseconds) {
        say_summary(rt, alloc, after, built, milliseconds)?;
    }
    Ok(())
}

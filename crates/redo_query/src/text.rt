//! The lines of an answer.

ghost use Rattle.std.specs.Prelude.{◌≡◌, ◌++◌, IfOk, OnOk, map};
ghost use Rattle.redo_report.specs.ReportText.{path_line};
ghost use Rattle.redo_query.specs.Answers.{entry_line as line_of_entry, entry_lines as lines_of_entries};
ghost use Rattle.redo_query.specs.Answers.{path_lines as lines_of_paths};

use redo_book::BookEntry;
use redo_path::Path;
use std::alloc::{AllocError, Global};

/// Adds a path and a newline.
fn push_path(text: &mut Vec<u8>, path: &Path) -> Result<(), AllocError>
    ensures { OnOk result (text.new.items ≡ text.old.items ++ path_line path.now) }
{
    text.extend_from_slice(path.text())?;
    text.extend_from_slice(b"\n")
}

/// Paths, one a line.
pub(crate) fn path_lines(alloc: Global, paths: &[&Path]) -> Result<Vec<u8>, AllocError>
    ensures { IfOk result (λ text. text.items ≡ lines_of_paths (map (λ p. p.now) paths.now)) }
{
    let mut text = Vec::new(alloc);
    for path in paths {
        push_path(&mut text, path)?;
    }
    Ok(text)
}

/// Adds a word, a path and a newline.
fn push_line(text: &mut Vec<u8>, word: &[u8], path: &Path) -> Result<(), AllocError>
    ensures { OnOk result (text.new.items ≡ text.old.items ++ word.now ++ path_line path.now) }
{
    text.extend_from_slice(word)?;
    push_path(text, path)?;
    Ok(())
}

/// Adds the line of an entry.
fn push_entry(text: &mut Vec<u8>, entry: &BookEntry) -> Result<(), AllocError>
    ensures { OnOk result (text.new.items ≡ text.old.items ++ line_of_entry entry.now) }
{
    match entry {
        BookEntry::Change(_, path) => {
            push_line(text, b"dep change ", path)?;
            Ok(())
        }
        BookEntry::Create(path) => {
            push_line(text, b"dep create ", path)?;
            Ok(())
        }
        BookEntry::Always => {
            text.extend_from_slice(b"dep always\n")?;
            Ok(())
        }
    }
}

/// The lines of a record's entries, as in a report.
pub(crate) fn entry_lines(alloc: Global, entries: &[BookEntry]) -> Result<Vec<u8>, AllocError>
    ensures { IfOk result (λ text. text.items ≡ lines_of_entries entries.now) }
{
    let mut text = Vec::new(alloc);
    for entry in entries {
        push_entry(&mut text, entry)?;
    }
    Ok(text)
}

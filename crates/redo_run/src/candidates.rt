//! The list of a target's candidates, one a line.

ghost use Rattle.std.specs.Prelude.{◌≡◌, ◌++◌, IfOk, OnOk};
ghost use Rattle.redo_report.specs.ReportText.{path_line};
ghost use Rattle.redo_run.specs.Candidates.{search_text};

use redo_path::Path;
use redo_which::Search;
use std::alloc::{AllocError, Global};

/// Adds a path and a newline.
fn push_path(text: &mut Vec<u8>, path: &Path) -> Result<(), AllocError>
    ensures { OnOk result (text.new.items ≡ text.old.items ++ path_line path.now) }
{
    text.extend_from_slice(path.text())?;
    text.extend_from_slice(b"\n")
}

/// The list of candidates that a search looked at, one a line.
pub(crate) fn text_of_search(alloc: Global, found: &Search) -> Result<Vec<u8>, AllocError>
    ensures { IfOk result (λ text. text.items ≡ search_text found.now) }
{
    let mut text = Vec::new(alloc);
    for path in &found.missing {
        push_path(&mut text, path)?;
    }
    if let Some(candidate) = &found.chosen {
        push_path(&mut text, &candidate.do_file)?;
    }
    Ok(text)
}

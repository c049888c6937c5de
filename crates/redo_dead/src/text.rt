//! The list of dead files.

ghost use Rattle.std.specs.Prelude.{◌≡◌, ◌++◌, IfOk, OnOk, flat_map, map};
ghost use Rattle.redo_report.specs.ReportText.{path_line};
ghost use Rattle.redo_dead.specs.Dead.{file_line};

use redo_clean::CleanPlan;
use redo_path::Path;
use redo_tree::Content;
use std::alloc::{AllocError, Global};

/// Adds the path of a file.
fn push_file(text: &mut Vec<u8>, file: &(Path, Content)) -> Result<(), AllocError>
    ensures { OnOk result (text.new.items ≡ text.old.items ++ file_line file.now) }
{
    text.extend_from_slice(file.0.text())?;
    text.extend_from_slice(b"\n")
}

/// The paths of the files that a plan removes, one a line.
pub fn dead_text(alloc: Global, plan: &CleanPlan) -> Result<Vec<u8>, AllocError>
    ensures { IfOk result (λ text. text.items ≡ flat_map file_line plan.now.generated.items) }
{
    let mut text = Vec::new(alloc);
    for file in &plan.generated {
        push_file(&mut text, file)?;
    }
    Ok(text)
}

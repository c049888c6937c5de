//! What a clean prints.

ghost use Rattle.std.specs.Prelude.{◌≡◌, ◌++◌, IfOk, OnOk, flat_map, map};
ghost use Rattle.redo_clean.specs.Texts.{changed_line, fate_line, fate_lines, planned_line};

use crate::fate::Fate;
use crate::planning::CleanPlan;
use redo_path::Path;
use redo_tree::Content;
use std::alloc::{AllocError, Global};

/// Adds a word, a path and what is said of it.
fn push_line(text: &mut Vec<u8>, word: &[u8], path: &Path, said: &[u8]) -> Result<(), AllocError>
    ensures { OnOk result (text.new.items ≡ text.old.items ++ word.now ++ path.now ++ said.now) }
{
    text.extend_from_slice(word)?;
    text.extend_from_slice(path.text())?;
    text.extend_from_slice(said)?;
    Ok(())
}

/// Adds the line of a file that was changed by hand.
fn push_changed(text: &mut Vec<u8>, path: &Path) -> Result<(), AllocError>
    ensures { OnOk result (text.new.items ≡ text.old.items ++ changed_line path.now) }
{
    push_line(text, b"kept ", path, b": changed by hand\n")?;
    Ok(())
}

/// Adds the line of a file by its fate.
fn push_fate(text: &mut Vec<u8>, path: &Path, fate: Fate) -> Result<(), AllocError>
    ensures { OnOk result (text.new.items ≡ text.old.items ++ fate_line path.now fate) }
{
    match fate {
        Fate::Removed => {
            push_line(text, b"removed ", path, b"\n")?;
            Ok(())
        }
        Fate::Changed => {
            push_changed(text, path)?;
            Ok(())
        }
        Fate::NoFile => {
            push_line(text, b"kept ", path, b": it is no plain file any more\n")?;
            Ok(())
        }
        Fate::Gone => Ok(()),
    }
}

/// Adds the line of a file that would be removed.
fn push_planned(text: &mut Vec<u8>, path: &Path) -> Result<(), AllocError>
    ensures { OnOk result (text.new.items ≡ text.old.items ++ planned_line path.now) }
{
    push_line(text, b"would remove ", path, b"\n")?;
    Ok(())
}

/// Adds the lines of the files that were changed by hand.
fn push_all_changed(text: &mut Vec<u8>, paths: &[Path]) -> Result<(), AllocError>
    ensures { OnOk result (text.new.items ≡ text.old.items ++ flat_map changed_line paths.now) }
{
    for path in paths {
        push_changed(text, path)?;
    }
    Ok(())
}

/// Adds the lines of files by their fates.
fn push_fates(
    text: &mut Vec<u8>,
    files: &[(Path, Content)],
    fates: &[Fate],
) -> Result<(), AllocError>
    ensures { OnOk result (text.new.items ≡ text.old.items ++ fate_lines (map (λ f. f.0) files.now) fates.now) }
{
    for (file, fate) in files.iter().zip(fates) {
        push_fate(text, &file.0, *fate)?;
    }
    Ok(())
}

/// What a clean would do: which files it would remove, and which it would keep.
pub fn planned_text(alloc: Global, plan: &CleanPlan) -> Result<Vec<u8>, AllocError>
    ensures { IfOk result (λ text. text.items ≡
        flat_map planned_line (map (λ f. f.0) plan.now.generated.items) ++ flat_map changed_line plan.now.changed.items) }
{
    let mut text = Vec::new(alloc);
    for (path, _) in &plan.generated {
        push_planned(&mut text, path)?;
    }
    push_all_changed(&mut text, &plan.changed)?;
    Ok(text)
}

/// What a clean did, by what became of the files of its plan: which of them were removed, and which files were kept.
pub fn cleaned_text(alloc: Global, plan: &CleanPlan, fates: &[Fate]) -> Result<Vec<u8>, AllocError>
    ensures { IfOk result (λ text. text.items ≡
        fate_lines (map (λ f. f.0) plan.now.generated.items) fates.now ++ flat_map changed_line plan.now.changed.items) }
{
    let mut text = Vec::new(alloc);
    push_fates(&mut text, &plan.generated, fates)?;
    push_all_changed(&mut text, &plan.changed)?;
    Ok(text)
}

//! Why each script was begun, in words.

ghost use Rattle.std.specs.Prelude.{◌≡◌, ◌++◌, IfOk, OnOk, flat_map, map};
ghost use Rattle.redo_rules.specs.Build.{GivenView};
ghost use Rattle.redo_rules.specs.Results.{IsGiven, IsResult};
ghost use Rattle.redo_step.specs.Limits.{LimitsView};
ghost use Rattle.redo_which.specs.Rule.{found_of};
ghost use Rattle.redo_which.specs.Views.{found_view};
ghost use Rattle.redo_explain.specs.Explained.{IsExplained};
ghost use Rattle.redo_explain.specs.Views.{begun_view, reason_view};
ghost use Rattle.redo_explain.specs.Words.{change_words as words_of_change, create_words as words_of_create};
ghost use Rattle.redo_explain.specs.Words.{entry_words, reason_line, reason_words as words_of_reason};

use crate::begun::{Begun, Reason, reasons};
use redo_book::BookEntry;
use redo_past::Past;
use redo_past::laws::a_tree_has_one_past;
use redo_path::Path;
use redo_report::Report;
use redo_tree::Tree;
use redo_which::{Found, lookup};
use std::alloc::{AllocError, Global};

/// What is told of a path that isn't as it was recorded, by what is found there now.
pub fn change_words(found: &Found) -> &'static [u8]
    ensures { result.now ≡ words_of_change (found_view found.now) }
{
    match found {
        Found::Source | Found::Rule(_) => b" has changed",
        Found::Directory | Found::NoDirectory | Found::NoRule { .. } => {
            b" isn't there any more as it was recorded"
        }
    }
}

/// What is told of a path that was free, by what is found there now.
pub fn create_words(found: &Found) -> &'static [u8]
    ensures { result.now ≡ words_of_create (found_view found.now) }
{
    match found {
        Found::Rule(_) => b", which was missing, has a rule now",
        Found::Source | Found::Directory | Found::NoDirectory | Found::NoRule { .. } => {
            b", which was missing, is there now"
        }
    }
}

/// Adds why an entry fell.
fn push_entry(
    alloc: Global,
    text: &mut Vec<u8>,
    sources: &Tree,
    entry: &BookEntry,
) -> Result<(), AllocError>
    ensures { OnOk result (text.new.items ≡ text.old.items ++ entry_words (found_of sources.now) entry.now) }
{
    match entry {
        BookEntry::Change(_, path) => {
            text.extend_from_slice(path.text())?;
            text.extend_from_slice(change_words(&lookup::find(alloc, sources, path)?))?;
            Ok(())
        }
        BookEntry::Create(path) => {
            text.extend_from_slice(path.text())?;
            text.extend_from_slice(create_words(&lookup::find(alloc, sources, path)?))?;
            Ok(())
        }
        BookEntry::Always => {
            text.extend_from_slice(b"it is made in each run")?;
            Ok(())
        }
    }
}

/// Adds a reason.
fn push_reason(
    alloc: Global,
    text: &mut Vec<u8>,
    sources: &Tree,
    reason: &Reason<'_>,
) -> Result<(), AllocError>
    ensures { OnOk result (text.new.items ≡
        text.old.items ++ words_of_reason (found_of sources.now) (reason_view reason.now)) }
{
    match reason {
        Reason::Requested => {
            text.extend_from_slice(b"it was requested")?;
            Ok(())
        }
        Reason::Unrecorded => {
            text.extend_from_slice(b"the book has no record of it")?;
            Ok(())
        }
        Reason::Altered => {
            text.extend_from_slice(b"its file is gone")?;
            Ok(())
        }
        Reason::Fallen(entry) => {
            push_entry(alloc, text, sources, entry)?;
            Ok(())
        }
    }
}

/// A reason in words, over these sources.
pub fn reason_words(
    alloc: Global,
    sources: &Tree,
    reason: &Reason<'_>,
) -> Result<Vec<u8>, AllocError>
    ensures { IfOk result (λ text. text.items ≡ words_of_reason (found_of sources.now) (reason_view reason.now)) }
{
    let mut text = Vec::new(alloc);
    push_reason(alloc, &mut text, sources, reason)?;
    Ok(text)
}

/// Adds the line of a begun script.
fn push_line(
    alloc: Global,
    text: &mut Vec<u8>,
    sources: &Tree,
    begun: &Begun<'_>,
) -> Result<(), AllocError>
    ensures { OnOk result (text.new.items ≡
        text.old.items ++ reason_line (found_of sources.now) (begun_view begun.now)) }
{
    text.extend_from_slice(b"begun ")?;
    text.extend_from_slice(begun.target.text())?;
    text.extend_from_slice(b": ")?;
    push_reason(alloc, text, sources, &begun.reason)?;
    text.extend_from_slice(b"\n")?;
    Ok(())
}

/// The lines of some begun scripts.
fn lines(alloc: Global, sources: &Tree, begun: &[Begun<'_>]) -> Result<Vec<u8>, AllocError>
    ensures { IfOk result (λ text. text.items ≡
        flat_map (reason_line (found_of sources.now)) (map begun_view begun.now)) }
{
    let mut text = Vec::new(alloc);
    for script in begun {
        push_line(alloc, &mut text, sources, script)?;
    }
    Ok(text)
}

/// Why each script of a build was begun, one a line, in the report's order.
///
/// `past` is that of the tree that was built, and `request` the paths that were requested.
pub fn explain(
    alloc: Global,
    past: &Past,
    request: &[Path],
    report: &Report,
) -> Result<Vec<u8>, AllocError>
    ensures { IfOk result (λ text. (limits : LimitsView) (given : GivenView) →
        IsGiven past.now.tree request.now limits given → IsResult given report.now →
        IsExplained given report.now text.items) }
{
    past.is_past();
    a_tree_has_one_past();
    let begun = reasons(alloc, past, request, report)?;
    lines(alloc, past.sources(), &begun)
}

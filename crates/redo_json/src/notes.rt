//! What is stale after a build, or soon will be, and what it doesn't need.

ghost use Rattle.std.specs.Prelude.{◌≡◌, ◌++◌, OnOk, flat_map};
ghost use Rattle.redo_json.specs.Members.{notes_member, notes_tokens, unbuilt_member, unbuilt_tokens};

use crate::members::Tokens;
use crate::paths::{push_path, push_paths, push_rule};
use redo_notes::{Notes, Unbuilt};
use redo_path::Path;
use std::alloc::{AllocError, Global};

/// Adds a source that has a rule.
fn push_unbuilt(alloc: Global, out: &mut Tokens, note: &Unbuilt) -> Result<(), AllocError>
    ensures { OnOk result (out.new ≡ out.old ++ unbuilt_tokens note.now) }
{
    out.begin_object()?;
    push_path(alloc, out, &note.path)?;
    push_rule(alloc, out, &note.do_file)?;
    out.end_object()
}

/// Adds each source that has a rule.
fn push_each(alloc: Global, out: &mut Tokens, notes: &[Unbuilt]) -> Result<(), AllocError>
    ensures { OnOk result (out.new ≡ out.old ++ flat_map unbuilt_tokens notes.now) }
{
    for note in notes {
        push_unbuilt(alloc, out, note)?;
    }
    Ok(())
}

/// Adds the sources that have rules.
fn push_all_unbuilt(alloc: Global, out: &mut Tokens, notes: &[Unbuilt]) -> Result<(), AllocError>
    ensures { OnOk result (out.new ≡ out.old ++ unbuilt_member notes.now) }
{
    out.begin_array("unbuilt")?;
    push_each(alloc, out, notes)?;
    out.end_array()
}

/// Adds the value of notes.
#[tactic(auto, unfolding(crate::specs::Members::notes_tokens))]
fn push_tokens(
    alloc: Global,
    out: &mut Tokens,
    notes: &Notes,
    dead: &[Path],
) -> Result<(), AllocError>
    ensures { OnOk result (out.new ≡ out.old ++ notes_tokens notes.now dead.now) }
{
    out.begin_object()?;
    push_all_unbuilt(alloc, out, &notes.unbuilt)?;
    push_paths(alloc, out, "unmade", &notes.unmade)?;
    push_paths(alloc, out, "ruleless", &notes.ruleless)?;
    push_paths(alloc, out, "dead", dead)?;
    out.end_object()
}

/// Adds the notes, and the files that the build doesn't need.
pub(crate) fn push_notes(
    alloc: Global,
    out: &mut Tokens,
    notes: &Notes,
    dead: &[Path],
) -> Result<(), AllocError>
    ensures { OnOk result (out.new ≡ out.old ++ notes_member notes.now dead.now) }
{
    out.key("notes")?;
    push_tokens(alloc, out, notes, dead)
}

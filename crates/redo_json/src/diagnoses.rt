//! What is wrong with a target that failed.

ghost use Rattle.std.specs.Prelude.{◌≡◌, ◌++◌, ◌∷◌, OnOk, option_copied};
ghost use Rattle.json.specs.Token.{key};
ghost use Rattle.redo_json.specs.Members.{diagnosis_member, diagnosis_tokens, help_members};
ghost use Rattle.redo_json.specs.Members.{mark_members, place_members};

use crate::members::Tokens;
use crate::paths::{push_file, push_readable};
use redo_diagnose::{Diagnosis, Place};
use std::alloc::{AllocError, Global};

/// Adds what a place marks.
fn push_mark(alloc: Global, out: &mut Tokens, place: &Place) -> Result<(), AllocError>
    ensures { OnOk result (out.new ≡ out.old ++ mark_members place.now) }
{
    push_file(alloc, out, &place.file)?;
    out.number("line", place.line)?;
    out.number("column", place.column)?;
    out.number("length", place.length)?;
    push_readable(alloc, out, "text", &place.text)
}

/// Adds what a place marks, if there is one.
fn push_place(alloc: Global, out: &mut Tokens, place: Option<&Place>) -> Result<(), AllocError>
    ensures { OnOk result (out.new ≡ out.old ++ place_members (option_copied place.entry)) }
{
    match place {
        Some(place) => push_mark(alloc, out, place),
        None => Ok(()),
    }
}

/// Adds what to do, if there are words for it.
fn push_help(alloc: Global, out: &mut Tokens, help: &[u8]) -> Result<(), AllocError>
    ensures { OnOk result (out.new ≡ out.old ++ help_members help.now) }
{
    if help.is_empty() {
        return Ok(());
    }
    push_readable(alloc, out, "help", help)
}

/// Adds the value of a diagnosis.
#[tactic(auto, unfolding(crate::specs::Members::diagnosis_tokens))]
fn push_tokens(alloc: Global, out: &mut Tokens, diagnosis: &Diagnosis) -> Result<(), AllocError>
    ensures { OnOk result (out.new ≡ out.old ++ diagnosis_tokens diagnosis.now) }
{
    out.begin_object()?;
    push_place(alloc, out, diagnosis.place.as_ref())?;
    push_readable(alloc, out, "message", &diagnosis.message)?;
    push_help(alloc, out, &diagnosis.help)?;
    out.number("waiting", diagnosis.waiting as u64)?;
    out.end_object()
}

/// Adds a member whose value is a diagnosis.
fn push_member(
    alloc: Global,
    out: &mut Tokens,
    name: &str,
    diagnosis: &Diagnosis,
) -> Result<(), AllocError>
    ensures { OnOk result (out.new ≡ out.old ++ key name.now ∷ diagnosis_tokens diagnosis.now) }
{
    out.key(name)?;
    push_tokens(alloc, out, diagnosis)
}

/// Adds a diagnosis, if there is one.
pub(crate) fn push_diagnosis(
    alloc: Global,
    out: &mut Tokens,
    diagnosis: Option<&Diagnosis>,
) -> Result<(), AllocError>
    ensures { OnOk result (out.new ≡ out.old ++ diagnosis_member (option_copied diagnosis.entry)) }
{
    match diagnosis {
        Some(diagnosis) => push_member(alloc, out, "diagnosis", diagnosis),
        None => Ok(()),
    }
}

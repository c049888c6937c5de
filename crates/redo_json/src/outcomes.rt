//! How a target ended.

ghost use Rattle.std.specs.Prelude.{◌≡◌, ◌++◌, OnOk};
ghost use Rattle.redo_json.specs.Members.{line_members, outcome_members};
ghost use Rattle.redo_json.specs.Members.{outcome_word as word_of_outcome};

use crate::members::Tokens;
use redo_diagnose::{line_named, why_text};
use redo_record::{Outcome, Why};
use std::alloc::{AllocError, Global};

/// The word for what became of a path, by whether its script was begun.
pub(crate) fn outcome_word(outcome: &Outcome, begun: bool) -> &'static str
    ensures { result.now ≡ word_of_outcome outcome.now begun }
{
    match outcome {
        Outcome::Source => "source",
        Outcome::Built(_) => { if begun { "built" } else { "kept" } }
        Outcome::Failed(_) => "failed",
        Outcome::Cyclic => "cyclic",
    }
}

/// Adds a line, if there is one.
fn push_line(out: &mut Tokens, line: Option<u64>) -> Result<(), AllocError>
    ensures { OnOk result (out.new ≡ out.old ++ line_members line) }
{
    match line {
        Some(line) => out.number("line", line),
        None => Ok(()),
    }
}

/// Adds why a target failed.
fn push_why(alloc: Global, out: &mut Tokens, why: Why) -> Result<(), AllocError>
    ensures { OnOk result (out.new ≡ out.old ++ outcome_members (Outcome.Failed why)) }
{
    let words = why_text(alloc, why)?;
    out.text("reason", words.as_str())?;
    push_line(out, line_named(why))
}

/// Adds how many bytes a target's file has, and why it failed.
pub(crate) fn push_outcome(
    alloc: Global,
    out: &mut Tokens,
    outcome: &Outcome,
) -> Result<(), AllocError>
    ensures { OnOk result (out.new ≡ out.old ++ outcome_members outcome.now) }
{
    match outcome {
        Outcome::Source | Outcome::Built(None) | Outcome::Cyclic => Ok(()),
        Outcome::Built(Some(content)) => out.number("bytes", content.bytes().len() as u64),
        Outcome::Failed(why) => push_why(alloc, out, *why),
    }
}

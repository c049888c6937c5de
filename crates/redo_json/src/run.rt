//! What was asked of a run.

ghost use Rattle.std.specs.Prelude.{◌≡◌, ◌++◌, OnOk, option_copied};
ghost use Rattle.redo_json.specs.Run.{asked_members, number_members, run_member, run_tokens, text_members, time_members};

use crate::members::Tokens;
use crate::paths::push_paths;
use redo_told::RunInfo;
use std::alloc::{AllocError, Global};

/// Adds a member whose value is a text, if there is one.
fn push_text(out: &mut Tokens, name: &str, text: Option<&str>) -> Result<(), AllocError>
    ensures { OnOk result (out.new ≡ out.old ++ text_members name.now (option_copied text.entry)) }
{
    match text {
        Some(text) => out.text(name, text),
        None => Ok(()),
    }
}

/// Adds a member whose value is a number, if there is one.
fn push_number(out: &mut Tokens, name: &str, number: Option<u64>) -> Result<(), AllocError>
    ensures { OnOk result (out.new ≡ out.old ++ number_members name.now number) }
{
    match number {
        Some(number) => out.number(name, number),
        None => Ok(()),
    }
}

/// Adds what was asked for.
#[tactic(auto, unfolding(crate::specs::Run::asked_members))]
fn push_asked(alloc: Global, out: &mut Tokens, run: &RunInfo<'_>) -> Result<(), AllocError>
    ensures { OnOk result (out.new ≡ out.old ++ asked_members run.now) }
{
    out.text("version", run.version)?;
    push_text(out, "directory", run.directory)?;
    push_paths(alloc, out, "request", run.request)?;
    out.number("jobs", run.jobs as u64)
}

/// Adds when it began, and how long it took.
#[tactic(auto, unfolding(crate::specs::Run::time_members))]
fn push_time(out: &mut Tokens, run: &RunInfo<'_>) -> Result<(), AllocError>
    ensures { OnOk result (out.new ≡ out.old ++ time_members run.now) }
{
    push_text(out, "began", run.began)?;
    push_number(out, "milliseconds", run.milliseconds)
}

/// Adds the value of a run.
fn push_tokens(alloc: Global, out: &mut Tokens, run: &RunInfo<'_>) -> Result<(), AllocError>
    ensures { OnOk result (out.new ≡ out.old ++ run_tokens run.now) }
{
    out.begin_object()?;
    push_asked(alloc, out, run)?;
    push_time(out, run)?;
    out.end_object()
}

/// Adds the run.
pub(crate) fn push_run(alloc: Global, out: &mut Tokens, run: &RunInfo<'_>) -> Result<(), AllocError>
    ensures { OnOk result (out.new ≡ out.old ++ run_member run.now) }
{
    out.key("run")?;
    push_tokens(alloc, out, run)
}

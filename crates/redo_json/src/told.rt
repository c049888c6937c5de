//! The whole text.

ghost use Rattle.std.specs.Prelude.{◌≡◌, ◌++◌, IfOk, OnOk};
ghost use Rattle.redo_json.specs.Told.{IsTold, beside_tokens, built_members, count_member, head_tokens};
ghost use Rattle.redo_json.specs.Told.{other_members, report_tokens, summary_tokens};
ghost use Rattle.redo_json.specs.inside.Known.{known_by, reasons_by};

use crate::known::{Known, Reasons};
use crate::members::Tokens;
use crate::notes::push_notes;
use crate::rings::push_rings;
use crate::rows::{count_of, push_rows};
use crate::run::push_run;
use redo_diagnose::Diagnosis;
use redo_explain::reasons;
use redo_notes::Notes;
use redo_past::Past;
use redo_path::Path;
use redo_report::{Report, Row};
use redo_rings::Ring;
use redo_told::RunInfo;
use std::alloc::{AllocError, Global};

/// What is told besides the report.
#[derive(Clone, Copy)]
pub struct Told<'a> {
    /// The status with which the program ends.
    pub status: u8,
    /// What was asked for, by which program and when.
    pub run: &'a RunInfo<'a>,
    /// Each is told in the row of its target; one whose target has no row isn't. Lines and columns count from 1,
    /// columns and lengths in bytes.
    pub diagnoses: &'a [Diagnosis],
    pub rings: &'a [Ring],
    /// All of them are told.
    pub notes: &'a Notes,
    /// The files that builds left and that this one doesn't need, in path order. They are a fourth kind of notes.
    pub dead: &'a [Path],
}

/// Adds how many rows have a word.
fn push_count(
    out: &mut Tokens,
    rows: &[Row],
    reasons: &Reasons<'_>,
    name: &str,
    word: &str,
) -> Result<(), AllocError>
    ensures { OnOk result (out.new ≡ out.old ++
        count_member (reasons_by reasons.now) rows.now name.now word.now) }
{
    out.number(name, count_of(rows, reasons, word) as u64)
}

/// Adds how many targets were built and kept.
fn push_built(out: &mut Tokens, rows: &[Row], reasons: &Reasons<'_>) -> Result<(), AllocError>
    ensures { OnOk result (out.new ≡ out.old ++ built_members (reasons_by reasons.now) rows.now) }
{
    push_count(out, rows, reasons, "built", "built")?;
    push_count(out, rows, reasons, "kept", "kept")
}

/// Adds how many rows there are of each other kind.
fn push_others(out: &mut Tokens, rows: &[Row], reasons: &Reasons<'_>) -> Result<(), AllocError>
    ensures { OnOk result (out.new ≡ out.old ++ other_members (reasons_by reasons.now) rows.now) }
{
    push_count(out, rows, reasons, "failed", "failed")?;
    push_count(out, rows, reasons, "cyclic", "cyclic")?;
    push_count(out, rows, reasons, "sources", "source")
}

/// Adds the summary.
fn push_summary(out: &mut Tokens, rows: &[Row], reasons: &Reasons<'_>) -> Result<(), AllocError>
    ensures { OnOk result (out.new ≡ out.old ++ summary_tokens (reasons_by reasons.now) rows.now) }
{
    out.begin_object()?;
    push_built(out, rows, reasons)?;
    push_others(out, rows, reasons)?;
    out.end_object()
}

/// Adds the status and the run.
fn push_head(alloc: Global, out: &mut Tokens, told: &Told<'_>) -> Result<(), AllocError>
    ensures { OnOk result (out.new ≡ out.old ++ head_tokens told.now) }
{
    out.number("status", u64::from(told.status))?;
    push_run(alloc, out, told.run)
}

/// Adds the rings and the notes.
fn push_beside(alloc: Global, out: &mut Tokens, told: &Told<'_>) -> Result<(), AllocError>
    ensures { OnOk result (out.new ≡ out.old ++ beside_tokens told.now) }
{
    push_rings(alloc, out, told.rings)?;
    push_notes(alloc, out, told.notes, told.dead)
}

/// The tokens of a report's text.
fn tokens_of(
    alloc: Global,
    known: &Known<'_>,
    rows: &[Row],
    told: &Told<'_>,
) -> Result<Tokens, AllocError>
    ensures { IfOk result (λ tokens. tokens ≡
        report_tokens (known_by known.now) told.now rows.now) }
{
    let mut out = Tokens::new(alloc);
    out.begin_object()?;
    push_head(alloc, &mut out, told)?;
    out.begin_array("targets")?;
    push_rows(alloc, &mut out, known, rows)?;
    out.end_array()?;
    push_beside(alloc, &mut out, told)?;
    out.key("summary")?;
    push_summary(&mut out, rows, &known.reasons)?;
    out.end_object()?;
    Ok(out)
}

/// The report as JSON: one object and a newline.
///
/// `past` is that of the tree that was built.
pub fn json(
    alloc: Global,
    past: &Past,
    report: &Report,
    told: &Told<'_>,
) -> Result<Vec<u8>, AllocError>
    ensures { IfOk result (λ text. IsTold past.now report.now told.now text.items) }
{
    let begun = reasons(alloc, past, told.run.request, report)?;
    let known = Known::of(alloc, past, &report.rows, &begun, told.diagnoses)?;
    let tokens = tokens_of(alloc, &known, &report.rows, told)?;
    let text = tokens.into_line()?;
    Ok(text)
}

//! The rows of a report.

ghost use Rattle.std.specs.Prelude.{◌≡◌, ◌++◌, OnOk, bytes_eq, is_some, option_copied, option_map};
ghost use Rattle.std.specs.Map.{lookup};
ghost use Rattle.redo_which.specs.Rule.{found_of};
ghost use Rattle.redo_explain.specs.Views.{reason_view};
ghost use Rattle.redo_json.specs.Members.{begun_members};
ghost use Rattle.redo_json.specs.Rows.{ended_members, row_tokens};
ghost use Rattle.redo_json.specs.Told.{count_of as count_in, has_word as has_this_word, rows_tokens};
ghost use Rattle.redo_json.specs.inside.Known.{known_by, reasons_by};

use crate::diagnoses::push_diagnosis;
use crate::entries::push_record;
use crate::known::{Known, Reasons};
use crate::made::push_made;
use crate::members::Tokens;
use crate::outcomes::{outcome_word, push_outcome};
use crate::paths::{push_path, push_readable};
use redo_explain::{Reason, reason_words};
use redo_path::Path;
use redo_report::Row;
use redo_tree::Tree;
use std::alloc::{AllocError, Global};

/// Whether a path has a reason.
fn has_reason(reasons: &Reasons<'_>, path: &Path) -> bool
    ensures { result ≡ is_some (lookup (bytes_eq path.now) reasons.now) }
{
    reasons.get(path).is_some()
}

/// Adds whether a script was begun, and why.
fn push_begun(
    alloc: Global,
    out: &mut Tokens,
    sources: &Tree,
    reason: Option<&Reason<'_>>,
) -> Result<(), AllocError>
    ensures { OnOk result (out.new ≡ out.old ++
        begun_members (found_of sources.now) (option_map reason_view (option_copied reason.entry))) }
{
    match reason {
        None => out.boolean("begun", false),
        Some(reason) => {
            let words = reason_words(alloc, sources, reason)?;
            out.boolean("begun", true)?;
            push_readable(alloc, out, "why", &words)
        }
    }
}

/// Adds what became of a row, and what is wrong with it.
#[tactic(auto, unfolding(crate::specs::Rows::ended_members))]
fn push_ended(
    alloc: Global,
    out: &mut Tokens,
    known: &Known<'_>,
    row: &Row,
) -> Result<(), AllocError>
    ensures { OnOk result (out.new ≡ out.old ++ ended_members (known_by known.now) row.now) }
{
    let begun = has_reason(&known.reasons, &row.path);
    out.text("outcome", outcome_word(&row.outcome, begun))?;
    push_outcome(alloc, out, &row.outcome)?;
    push_diagnosis(alloc, out, known.diagnosis(&row.path))
}

/// Adds a row.
fn push_row(alloc: Global, out: &mut Tokens, known: &Known<'_>, row: &Row) -> Result<(), AllocError>
    ensures { OnOk result (out.new ≡ out.old ++ row_tokens (known_by known.now) row.now) }
{
    out.begin_object()?;
    push_path(alloc, out, &row.path)?;
    push_ended(alloc, out, known, row)?;
    push_begun(alloc, out, known.sources, known.reason(&row.path))?;
    push_made(alloc, out, known.before, &known.failed, row)?;
    push_record(alloc, out, &row.deps)?;
    out.end_object()
}

/// Adds rows.
pub(crate) fn push_rows(
    alloc: Global,
    out: &mut Tokens,
    known: &Known<'_>,
    rows: &[Row],
) -> Result<(), AllocError>
    ensures { OnOk result (out.new ≡ out.old ++ rows_tokens (known_by known.now) rows.now) }
{
    for row in rows {
        push_row(alloc, out, known, row)?;
    }
    Ok(())
}

/// Whether this is the word for what became of a row.
fn has_word(row: &Row, reasons: &Reasons<'_>, word: &str) -> bool
    ensures { result ≡ has_this_word (reasons_by reasons.now) word.now row.now }
{
    outcome_word(&row.outcome, has_reason(reasons, &row.path)) == word
}

/// How many rows have that word.
#[tactic(auto, unfolding(crate::specs::Told::count_of))]
pub(crate) fn count_of(rows: &[Row], reasons: &Reasons<'_>, word: &str) -> usize
    ensures { result ≡ count_in (reasons_by reasons.now) rows.now word.now }
{
    rows.iter()
        .filter(|row| has_word(row, reasons, word))
        .count()
}

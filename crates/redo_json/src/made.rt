//! What is told of a target besides how it ended: its rule, whether its file has changed, and what blocks it.

ghost use Rattle.std.specs.Prelude.{◌≡◌, ◌++◌, OnOk, option_copied};
ghost use Rattle.redo_names.specs.Paths.{is_among};
ghost use Rattle.redo_json.specs.Made.{blocked_members, changed_members, is_built as was_built, made_members};
ghost use Rattle.redo_json.specs.Made.{rule_if_any};

use crate::members::Tokens;
use crate::paths::{push_paths, push_rule};
use redo_names::PathSet;
use redo_path::Path;
use redo_record::Outcome;
use redo_report::Row;
use redo_told::{blockers, is_blocked, is_changed, rule_of};
use redo_tree::Tree;
use std::alloc::{AllocError, Global};

/// Adds the path of a rule's .do file, if there is one.
fn push_rule_if_any(alloc: Global, out: &mut Tokens, file: Option<&Path>) -> Result<(), AllocError>
    ensures { OnOk result (out.new ≡ out.old ++ rule_if_any (option_copied file.entry)) }
{
    match file {
        Some(file) => push_rule(alloc, out, file),
        None => Ok(()),
    }
}

/// Whether a target was built, by this run or an earlier one.
fn is_built(outcome: &Outcome) -> bool
    ensures { result ≡ was_built outcome.now }
{
    matches!(outcome, Outcome::Built(_))
}

/// Adds whether a target's file has changed, if it was built.
fn push_changed(out: &mut Tokens, before: &Tree, row: &Row) -> Result<(), AllocError>
    ensures { OnOk result (out.new ≡ out.old ++ changed_members before.now row.now) }
{
    if !is_built(&row.outcome) {
        return Ok(());
    }
    out.boolean("changed", is_changed(before, row))
}

/// Adds what blocks a target, if it failed because something that it needs did.
fn push_blocked(
    alloc: Global,
    out: &mut Tokens,
    failed: &PathSet,
    row: &Row,
) -> Result<(), AllocError>
    ensures { OnOk result (out.new ≡ out.old ++ blocked_members (is_among failed.now) row.now) }
{
    if !is_blocked(&row.outcome) {
        return Ok(());
    }
    let paths = blockers(alloc, failed, row)?;
    push_paths(alloc, out, "blocked_by", &paths)
}

/// Adds all of it.
#[tactic(auto, unfolding(crate::specs::Made::made_members))]
pub(crate) fn push_made(
    alloc: Global,
    out: &mut Tokens,
    before: &Tree,
    failed: &PathSet,
    row: &Row,
) -> Result<(), AllocError>
    ensures { OnOk result (out.new ≡ out.old ++ made_members before.now (is_among failed.now) row.now) }
{
    push_rule_if_any(alloc, out, rule_of(&row.deps))?;
    push_changed(out, before, row)?;
    push_blocked(alloc, out, failed, row)
}

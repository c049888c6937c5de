//! The whole text.

ghost use Rattle.std.specs.Prelude.{◌≡◌, ◌++◌, IfOk, OnOk, flat_map};
ghost use Rattle.redo_names.specs.Paths.{is_among};
ghost use Rattle.redo_dot.specs.Dot.{graph_of as graph_of_rows, graph_text, look_of as look_of_outcome};
ghost use Rattle.redo_dot.specs.Dot.{node_line, row_lines};

use crate::edges::push_entries;
use crate::names::push_name;
use redo_names::PathSet;
use redo_path::Path;
use redo_record::Outcome;
use redo_report::{Report, Row};
use std::alloc::{AllocError, Global};

/// The look of a row's node, by what became of it and whether its script was begun.
fn look_of(outcome: &Outcome, begun: bool) -> &'static [u8]
    ensures { result.now ≡ look_of_outcome outcome.now begun }
{
    match outcome {
        Outcome::Source => b"",
        Outcome::Built(_) => {
            if begun {
                b" [shape=box color=black]"
            } else {
                b" [shape=box color=grey]"
            }
        }
        Outcome::Failed(_) => b" [shape=box color=red]",
        Outcome::Cyclic => b" [shape=box color=orange]",
    }
}

/// Adds the line of a row's node.
fn push_node(text: &mut Vec<u8>, begun: &PathSet, row: &Row) -> Result<(), AllocError>
    ensures { OnOk result (text.new.items ≡ text.old.items ++ node_line (is_among begun.now) row.now) }
{
    push_name(text, &row.path)?;
    text.extend_from_slice(look_of(&row.outcome, begun.contains(&row.path)))?;
    text.extend_from_slice(b";\n")
}

/// Adds the lines of a row.
fn push_row(
    alloc: Global,
    text: &mut Vec<u8>,
    begun: &PathSet,
    with_rules: bool,
    row: &Row,
) -> Result<(), AllocError>
    ensures { OnOk result (text.new.items ≡ text.old.items ++ row_lines (is_among begun.now) with_rules row.now) }
{
    let entries = row.deps.entries(alloc)?;
    push_node(text, begun, row)?;
    push_entries(text, with_rules, &row.path, &entries)
}

/// Adds the lines of rows.
fn push_rows(
    alloc: Global,
    text: &mut Vec<u8>,
    begun: &PathSet,
    with_rules: bool,
    rows: &[Row],
) -> Result<(), AllocError>
    ensures { OnOk result (text.new.items ≡ text.old.items ++
        flat_map (row_lines (is_among begun.now) with_rules) rows.now) }
{
    for row in rows {
        push_row(alloc, text, begun, with_rules, row)?;
    }
    Ok(())
}

/// The graph of rows, with those paths whose scripts were begun.
fn graph_of(
    alloc: Global,
    begun: &PathSet,
    with_rules: bool,
    rows: &[Row],
) -> Result<Vec<u8>, AllocError>
    ensures { IfOk result (λ text. text.items ≡ graph_of_rows (is_among begun.now) with_rules rows.now) }
{
    let mut text = Vec::new(alloc);
    text.extend_from_slice(b"digraph redo {\nnode [shape=plaintext];\n")?;
    push_rows(alloc, &mut text, begun, with_rules, rows)?;
    text.extend_from_slice(b"}\n")?;
    Ok(text)
}

/// The graph of a report. The `.do` files are in it if `with_rules` says so.
pub fn dot(alloc: Global, report: &Report, with_rules: bool) -> Result<Vec<u8>, AllocError>
    ensures { IfOk result (λ text. text.items ≡ graph_text report.now with_rules) }
{
    let begun = PathSet::of_paths(alloc, &report.begun)?;
    let text = graph_of(alloc, &begun, with_rules, &report.rows)?;
    Ok(text)
}

//! The rows of a report.

ghost use Rattle.std.specs.Prelude.{◌≡◌, ◌++◌, ◌∷◌, OnOk, flat_map, option_copied};
ghost use Rattle.redo_page.specs.Pages.{cells_pieces, entry_pieces, failed_pieces, front_pieces, kind_pieces};
ghost use Rattle.redo_page.specs.Pages.{outcome_pieces, reason_pieces, record_pieces, rows_pieces};
ghost use Rattle.redo_page.specs.Pages.{size_pieces, user_pieces, users_pieces, why_pieces};
ghost use Rattle.redo_page.specs.Parts.{a_tag, text_of};
ghost use Rattle.redo_page.specs.declared.parts.Tag.TheVariants as tags;
ghost use Rattle.redo_page.specs.inside.Links.{known_by};

use crate::links::{Links, push_link, push_path};
use crate::parts::{Part, RowPart, Tag, Word};
use crate::summary::row_word;
use crate::writer::Writer;
use redo_diagnose::why_text;
use redo_path::Path;
use redo_record::{Dep, DepKind, Outcome, Record, Why};
use redo_report::Row;
use std::alloc::{AllocError, Global};

/// Adds an entry of a kind, by the number of its path's row.
fn push_kind(
    out: &mut Writer,
    kind: DepKind,
    path: &Path,
    number: Option<usize>,
) -> Result<(), AllocError>
    ensures { OnOk result (out.new ≡ out.old ++ text_of (kind_pieces kind path.now number)) }
{
    match kind {
        DepKind::Change => out.fixed(Part::Row(RowPart::Change))?,
        DepKind::Create => out.fixed(Part::Row(RowPart::Create))?,
        DepKind::Always => return out.fixed(Part::Row(RowPart::Always)),
    }
    push_path(out, number, path)
}

/// Adds an entry.
fn push_entry(out: &mut Writer, links: &Links<'_>, entry: &Dep) -> Result<(), AllocError>
    ensures { OnOk result (out.new ≡ out.old ++ text_of (entry_pieces (known_by links.now) entry.now)) }
{
    push_kind(out, entry.kind, &entry.path, links.row_of(&entry.path))
}

/// Adds entries.
fn push_entries(out: &mut Writer, links: &Links<'_>, entries: &[Dep]) -> Result<(), AllocError>
    ensures { OnOk result (out.new ≡ out.old ++
        text_of (flat_map (entry_pieces (known_by links.now)) entries.now)) }
{
    for entry in entries {
        push_entry(out, links, entry)?;
    }
    Ok(())
}

/// Adds a record, if it has an entry.
fn push_record(
    alloc: Global,
    out: &mut Writer,
    links: &Links<'_>,
    deps: &Record,
) -> Result<(), AllocError>
    ensures { OnOk result (out.new ≡ out.old ++ text_of (record_pieces (known_by links.now) deps.now)) }
{
    let entries = deps.entries(alloc)?;
    if entries.is_empty() {
        return Ok(());
    }
    out.fixed(Part::Row(RowPart::Needs))?;
    push_entries(out, links, &entries)
}

/// Adds a link to a row that needs another.
fn push_user(out: &mut Writer, rows: &[Row], number: usize) -> Result<(), AllocError>
    ensures { OnOk result (out.new ≡ out.old ++ text_of (user_pieces rows.now number)) }
{
    match rows.get(number) {
        Some(row) => push_link(out, number, &row.path),
        None => Ok(()),
    }
}

/// Adds links to rows that need another, a blank before each.
fn push_others(out: &mut Writer, rows: &[Row], numbers: &[usize]) -> Result<(), AllocError>
    ensures { OnOk result (out.new ≡ out.old ++
        text_of (flat_map (λ n. a_tag tags.Blank ∷ user_pieces rows.now n) numbers.now)) }
{
    for number in numbers {
        out.fixed(Part::Tag(Tag::Blank))?;
        push_user(out, rows, *number)?;
    }
    Ok(())
}

/// Adds the rows that need another, if there is one.
fn push_users(out: &mut Writer, rows: &[Row], numbers: &[usize]) -> Result<(), AllocError>
    ensures { OnOk result (out.new ≡ out.old ++ text_of (users_pieces rows.now numbers.now)) }
{
    let Some((first, others)) = numbers.split_first() else {
        return Ok(());
    };
    out.fixed(Part::Row(RowPart::NeededBy))?;
    push_user(out, rows, *first)?;
    push_others(out, rows, others)
}

/// Adds why a target failed, as a link to its diagnosis if it has one.
fn push_reason(
    alloc: Global,
    out: &mut Writer,
    is_told: bool,
    number: usize,
    why: Why,
) -> Result<(), AllocError>
    ensures { OnOk result (out.new ≡ out.old ++ text_of (reason_pieces is_told number why)) }
{
    let words = why_text(alloc, why)?;
    if !is_told {
        out.fixed(Part::Tag(Tag::Blank))?;
        return out.text(words.as_bytes());
    }
    out.fixed(Part::Row(RowPart::Failure))?;
    out.number(number as u64)?;
    out.fixed(Part::Tag(Tag::LinkText))?;
    out.text(words.as_bytes())?;
    out.fixed(Part::Tag(Tag::LinkEnd))
}

/// Adds why a target failed, if it did.
fn push_failed(
    alloc: Global,
    out: &mut Writer,
    is_told: bool,
    number: usize,
    outcome: &Outcome,
) -> Result<(), AllocError>
    ensures { OnOk result (out.new ≡ out.old ++ text_of (failed_pieces is_told number outcome.now)) }
{
    match outcome {
        Outcome::Failed(why) => push_reason(alloc, out, is_told, number, *why),
        Outcome::Source | Outcome::Built(_) | Outcome::Cyclic => Ok(()),
    }
}

/// Adds how many bytes a target's file has.
fn push_size(out: &mut Writer, outcome: &Outcome) -> Result<(), AllocError>
    ensures { OnOk result (out.new ≡ out.old ++ text_of (size_pieces outcome.now)) }
{
    match outcome {
        Outcome::Built(Some(content)) => out.number(content.bytes().len() as u64),
        Outcome::Built(None) => out.fixed(Part::Word(Word::Nothing)),
        Outcome::Source | Outcome::Failed(_) | Outcome::Cyclic => Ok(()),
    }
}

/// Adds why a script was begun, if it was.
fn push_why(out: &mut Writer, why: Option<&[u8]>) -> Result<(), AllocError>
    ensures { OnOk result (out.new ≡ out.old ++ text_of (why_pieces (option_copied why.entry))) }
{
    match why {
        Some(why) => out.text(why),
        None => Ok(()),
    }
}

/// Adds a row's path, and what it needs.
fn push_front(
    alloc: Global,
    out: &mut Writer,
    links: &Links<'_>,
    number: usize,
    row: &Row,
) -> Result<(), AllocError>
    ensures { OnOk result (out.new ≡ out.old ++ text_of (front_pieces (known_by links.now) number row.now)) }
{
    out.fixed(Part::Row(RowPart::Begin))?;
    out.fixed(Part::Word(row_word(links, row)))?;
    out.fixed(Part::Row(RowPart::Path))?;
    out.text(row.path.text())?;
    out.fixed(Part::Row(RowPart::Record))?;
    out.number(number as u64)?;
    out.fixed(Part::Tag(Tag::LinkText))?;
    push_record(alloc, out, links, &row.deps)
}

/// Adds what became of a row, and why, if it failed.
fn push_outcome(
    alloc: Global,
    out: &mut Writer,
    links: &Links<'_>,
    number: usize,
    row: &Row,
) -> Result<(), AllocError>
    ensures { OnOk result (out.new ≡ out.old ++ text_of (outcome_pieces (known_by links.now) number row.now)) }
{
    out.fixed(Part::Row(RowPart::Outcome))?;
    out.fixed(Part::Shown(row_word(links, row)))?;
    push_failed(alloc, out, links.is_told(&row.path), number, &row.outcome)
}

/// Adds a row's last cells.
fn push_cells(out: &mut Writer, links: &Links<'_>, row: &Row) -> Result<(), AllocError>
    ensures { OnOk result (out.new ≡ out.old ++ text_of (cells_pieces (known_by links.now) row.now)) }
{
    out.fixed(Part::Tag(Tag::Cell))?;
    push_size(out, &row.outcome)?;
    out.fixed(Part::Tag(Tag::Cell))?;
    push_why(out, links.why(&row.path))?;
    out.fixed(Part::Tag(Tag::LineEnd))
}

/// Adds the first ones of all rows.
pub(crate) fn push_rows(
    alloc: Global,
    out: &mut Writer,
    links: &Links<'_>,
    all: &[Row],
    rows: &[Row],
) -> Result<(), AllocError>
    ensures { OnOk result (out.new ≡ out.old ++ text_of (rows_pieces (known_by links.now) all.now 0 rows.now)) }
{
    for (number, row) in rows.iter().enumerate() {
        push_front(alloc, out, links, number, row)?;
        push_users(out, all, links.users(number))?;
        push_outcome(alloc, out, links, number, row)?;
        push_cells(out, links, row)?;
    }
    Ok(())
}

//! The data of a page, from which its script makes the table and the graph.

ghost use Rattle.std.specs.Prelude.{◌≡◌, ◌++◌, IfOk, OnOk, false, flat_map, map, option_copied, [], ◌∷◌};
ghost use Rattle.std.specs.Map.{keys_of};
ghost use Rattle.std.specs.Option.{option_map_or};
ghost use Rattle.redo_record.specs.Progress.{changes};
ghost use Rattle.redo_page.specs.Data.{always_number as number_of_always, bytes_pieces, changes_pieces, comma_pieces};
ghost use Rattle.redo_page.specs.Data.{data_pieces, ended_pieces, entries_pieces, head_pieces};
ghost use Rattle.redo_page.specs.Data.{is_always as is_always_made, member_pieces, missing_after, missing_pieces};
ghost use Rattle.redo_page.specs.Data.{numbers_pieces, paths_pieces, place_pieces};
ghost use Rattle.redo_page.specs.Data.{reason_text, reasons_pieces, requested_in, series};
ghost use Rattle.redo_page.specs.Data.{table_script_pieces, tail_pieces};
ghost use Rattle.redo_page.specs.Parts.{Number, Quoted, of_data, text_of, written};
ghost use Rattle.redo_page.specs.declared.parts.DataPart.TheVariants as data_parts;
ghost use Rattle.redo_page.specs.inside.Links.{known_by};
ghost use Rattle.redo_page.specs.inside.Named.{number_by};
ghost use Rattle.redo_page.specs.inside.Grouping.{numbers_in};

use crate::grouping::Grouping;
use crate::links::Links;
use crate::named::Named;
use crate::parts::{DataPart, Part};
use crate::summary::row_word;
use crate::writer::Writer;
use redo_diagnose::why_text;
use redo_names::PathMap;
use redo_path::Path;
use redo_record::{Dep, DepKind, Outcome, Record};
use redo_report::Row;
use std::alloc::{AllocError, Global};

/// What the data tells of rows by number.
#[derive(Drop)]
pub(crate) struct Numbered<'a> {
    pub(crate) named: &'a Named<'a>,
    pub(crate) grouping: &'a Grouping,
}

/// Adds a fixed part of the data.
pub(crate) fn push_part(out: &mut Writer, part: DataPart) -> Result<(), AllocError>
    ensures { OnOk result (out.new ≡ out.old ++ written (of_data part)) }
{
    out.fixed(Part::Data(part))
}

/// Adds a comma before each member of a list but the first.
pub(crate) fn push_comma(out: &mut Writer, place: usize) -> Result<(), AllocError>
    ensures { OnOk result (out.new ≡ out.old ++ text_of (comma_pieces place)) }
{
    if place == 0 {
        return Ok(());
    }
    push_part(out, DataPart::Comma)
}

/// Adds numbers, with commas between.
fn push_series(out: &mut Writer, numbers: &[usize]) -> Result<(), AllocError>
    ensures { OnOk result (out.new ≡ out.old ++ text_of (series (λ _ n. Number n ∷ []) 0 numbers.now)) }
{
    for (place, number) in numbers.iter().enumerate() {
        push_comma(out, place)?;
        out.number(*number as u64)?;
    }
    Ok(())
}

/// Adds numbers in brackets.
fn push_numbers(out: &mut Writer, numbers: &[usize]) -> Result<(), AllocError>
    ensures { OnOk result (out.new ≡ out.old ++ text_of (numbers_pieces numbers.now)) }
{
    push_part(out, DataPart::Open)?;
    push_series(out, numbers)?;
    push_part(out, DataPart::Close)
}

/// The numbers of the paths that have to stay as they are.
fn changes_of(alloc: Global, named: &Named<'_>, entries: &[Dep]) -> Result<Vec<usize>, AllocError>
    ensures { IfOk result (λ numbers. numbers.items ≡ map (number_by named.now) (changes entries.now)) }
{
    let mut numbers = Vec::new(alloc);
    for entry in entries {
        match entry.kind {
            DepKind::Change => numbers.push(named.number(&entry.path))?,
            DepKind::Create | DepKind::Always => {}
        }
    }
    Ok(numbers)
}

/// The numbers of the paths that have to stay missing, as the script declared it: those behind the rule.
fn missing_of(alloc: Global, named: &Named<'_>, entries: &[Dep]) -> Result<Vec<usize>, AllocError>
    ensures { IfOk result (λ numbers. numbers.items ≡ map (number_by named.now) (missing_after false entries.now)) }
{
    let mut numbers = Vec::new(alloc);
    let mut ruled = false;
    for entry in entries {
        match entry.kind {
            DepKind::Change => ruled = true,
            DepKind::Create => {
                if ruled {
                    numbers.push(named.number(&entry.path))?;
                }
            }
            DepKind::Always => {}
        }
    }
    Ok(numbers)
}

/// Whether an entry says that the target is made in each run.
fn is_always(entry: &Dep) -> bool
    ensures { result ≡ is_always_made entry.now }
{
    match entry.kind {
        DepKind::Always => true,
        DepKind::Change | DepKind::Create => false,
    }
}

/// 1 where the target is made in each run.
fn always_number(entries: &[Dep]) -> u64
    ensures { result ≡ number_of_always entries.now }
{
    for entry in entries {
        if is_always(entry) {
            return 1;
        }
    }
    0
}

/// Adds how many bytes a target's file has.
fn push_bytes(out: &mut Writer, outcome: &Outcome) -> Result<(), AllocError>
    ensures { OnOk result (out.new ≡ out.old ++ text_of (bytes_pieces outcome.now)) }
{
    match outcome {
        Outcome::Built(Some(content)) => out.number(content.bytes().len() as u64),
        Outcome::Built(None) | Outcome::Source | Outcome::Failed(_) | Outcome::Cyclic => {
            push_part(out, DataPart::Null)
        }
    }
}

/// Adds what became of a row, and how many bytes it has.
#[tactic(auto, unfolding(crate::specs::Data::ended_pieces))]
fn push_ended(out: &mut Writer, links: &Links<'_>, row: &Row) -> Result<(), AllocError>
    ensures { OnOk result (out.new ≡ out.old ++ text_of (ended_pieces (known_by links.now) row.now)) }
{
    push_part(out, DataPart::Open)?;
    out.number(row_word(links, row).number())?;
    push_part(out, DataPart::Comma)?;
    push_bytes(out, &row.outcome)?;
    push_part(out, DataPart::Comma)
}

/// Adds the height of a row, and its group.
#[tactic(auto, unfolding(crate::specs::Data::place_pieces))]
fn push_place(out: &mut Writer, told: &Numbered<'_>, number: usize) -> Result<(), AllocError>
    ensures { OnOk result (out.new ≡ out.old ++ text_of (place_pieces (numbers_in told.now) number)) }
{
    out.number(told.grouping.height(number) as u64)?;
    push_part(out, DataPart::Comma)?;
    out.number(told.grouping.group(number) as u64)?;
    push_part(out, DataPart::Comma)
}

/// Adds the paths that have to stay as they are.
#[tactic(auto, unfolding(crate::specs::Data::changes_pieces))]
fn push_changes(
    alloc: Global,
    out: &mut Writer,
    told: &Numbered<'_>,
    entries: &[Dep],
) -> Result<(), AllocError>
    ensures { OnOk result (out.new ≡ out.old ++
        text_of (changes_pieces (known_by told.now.named.now.links.now) (numbers_in told.now) entries.now)) }
{
    let numbers = changes_of(alloc, told.named, entries)?;
    push_numbers(out, &numbers)?;
    push_part(out, DataPart::Comma)
}

/// Adds the paths that have to stay missing.
#[tactic(auto, unfolding(crate::specs::Data::missing_pieces))]
fn push_missing(
    alloc: Global,
    out: &mut Writer,
    told: &Numbered<'_>,
    entries: &[Dep],
) -> Result<(), AllocError>
    ensures { OnOk result (out.new ≡ out.old ++
        text_of (missing_pieces (known_by told.now.named.now.links.now) (numbers_in told.now) entries.now)) }
{
    let numbers = missing_of(alloc, told.named, entries)?;
    push_numbers(out, &numbers)?;
    push_part(out, DataPart::Comma)
}

/// Adds what a record has.
#[tactic(auto, unfolding(crate::specs::Data::entries_pieces))]
fn push_entries(
    alloc: Global,
    out: &mut Writer,
    told: &Numbered<'_>,
    deps: &Record,
) -> Result<(), AllocError>
    ensures { OnOk result (out.new ≡ out.old ++
        text_of (entries_pieces (known_by told.now.named.now.links.now) (numbers_in told.now) deps.now)) }
{
    let entries = deps.entries(alloc)?;
    push_changes(alloc, out, told, &entries)?;
    push_missing(alloc, out, told, &entries)?;
    out.number(always_number(&entries))?;
    push_part(out, DataPart::Comma)
}

/// Adds why a target failed, if it did.
fn push_reason(alloc: Global, out: &mut Writer, outcome: &Outcome) -> Result<(), AllocError>
    ensures { OnOk result (out.new ≡ out.old ++ written (Quoted (reason_text outcome.now))) }
{
    match outcome {
        Outcome::Failed(why) => out.quoted(why_text(alloc, *why)?.as_bytes()),
        Outcome::Source | Outcome::Built(_) | Outcome::Cyclic => out.quoted(b""),
    }
}

/// Adds why a script was begun, if it was.
fn push_why(out: &mut Writer, why: Option<&[u8]>) -> Result<(), AllocError>
    ensures { OnOk result (out.new ≡ out.old ++ written (Quoted (option_map_or (λ why. why) (option_copied why.entry) []))) }
{
    match why {
        Some(why) => out.quoted(why),
        None => out.quoted(b""),
    }
}

/// Adds why a row's script was begun, and why it failed.
#[tactic(auto, unfolding(crate::specs::Data::reasons_pieces))]
fn push_reasons(
    alloc: Global,
    out: &mut Writer,
    links: &Links<'_>,
    row: &Row,
) -> Result<(), AllocError>
    ensures { OnOk result (out.new ≡ out.old ++ text_of (reasons_pieces (known_by links.now) row.now)) }
{
    push_why(out, links.why(&row.path))?;
    push_part(out, DataPart::Comma)?;
    push_reason(alloc, out, &row.outcome)?;
    push_part(out, DataPart::Close)
}

/// Adds a row.
#[tactic(auto, unfolding(crate::specs::Data::member_pieces))]
fn push_member(
    alloc: Global,
    out: &mut Writer,
    told: &Numbered<'_>,
    number: usize,
    row: &Row,
) -> Result<(), AllocError>
    ensures { OnOk result (out.new ≡ out.old ++ text_of
        (member_pieces (known_by told.now.named.now.links.now) (numbers_in told.now) number row.now)) }
{
    push_ended(out, told.named.links(), row)?;
    push_place(out, told, number)?;
    push_entries(alloc, out, told, &row.deps)?;
    push_reasons(alloc, out, told.named.links(), row)
}

/// Adds rows, with commas between.
fn push_members(
    alloc: Global,
    out: &mut Writer,
    told: &Numbered<'_>,
    rows: &[Row],
) -> Result<(), AllocError>
    ensures { OnOk result (out.new ≡ out.old ++ text_of
        (series (member_pieces (known_by told.now.named.now.links.now) (numbers_in told.now)) 0 rows.now)) }
{
    for (number, row) in rows.iter().enumerate() {
        push_comma(out, number)?;
        push_member(alloc, out, told, number, row)?;
    }
    Ok(())
}

/// Adds the paths of rows, with commas between.
fn push_row_paths(out: &mut Writer, rows: &[Row]) -> Result<(), AllocError>
    ensures { OnOk result (out.new ≡ out.old ++ text_of (series (λ _ row. Quoted row.path ∷ []) 0 rows.now)) }
{
    for (place, row) in rows.iter().enumerate() {
        push_comma(out, place)?;
        out.quoted(row.path.text())?;
    }
    Ok(())
}

/// Adds the paths that have no row, behind others.
fn push_other_paths(out: &mut Writer, others: &PathMap<usize>) -> Result<(), AllocError>
    ensures { OnOk result (out.new ≡ out.old ++
        text_of (flat_map (λ path. of_data data_parts.Comma ∷ Quoted path ∷ []) (keys_of others.now))) }
{
    for place in 0..others.len() {
        let (path, _) = others.at(place);
        push_part(out, DataPart::Comma)?;
        out.quoted(path.text())?;
    }
    Ok(())
}

/// The rows of the requested paths.
fn requested(alloc: Global, links: &Links<'_>, request: &[Path]) -> Result<Vec<usize>, AllocError>
    ensures { IfOk result (λ numbers. numbers.items ≡ requested_in (known_by links.now) request.now) }
{
    let mut numbers = Vec::new(alloc);
    for path in request {
        if let Some(number) = links.row_of(path) {
            numbers.push(number)?;
        }
    }
    Ok(numbers)
}

/// Adds how many rows there are, and which were requested.
#[tactic(auto, unfolding(crate::specs::Data::head_pieces))]
fn push_head(
    alloc: Global,
    out: &mut Writer,
    links: &Links<'_>,
    request: &[Path],
    rows: &[Row],
) -> Result<(), AllocError>
    ensures { OnOk result (out.new ≡ out.old ++ text_of (head_pieces (known_by links.now) request.now rows.now)) }
{
    push_part(out, DataPart::Count)?;
    out.number(rows.len() as u64)?;
    push_part(out, DataPart::Requested)?;
    let numbers = requested(alloc, links, request)?;
    push_series(out, &numbers)
}

/// Adds all paths.
#[tactic(auto, unfolding(crate::specs::Data::paths_pieces))]
fn push_paths(out: &mut Writer, told: &Numbered<'_>, rows: &[Row]) -> Result<(), AllocError>
    ensures { OnOk result (out.new ≡ out.old ++ text_of (paths_pieces (numbers_in told.now) rows.now)) }
{
    push_part(out, DataPart::Paths)?;
    push_row_paths(out, rows)?;
    push_other_paths(out, told.named.others())
}

/// Adds the data of these rows.
#[tactic(auto, unfolding(crate::specs::Data::data_pieces))]
fn push_data(
    alloc: Global,
    out: &mut Writer,
    told: &Numbered<'_>,
    request: &[Path],
    rows: &[Row],
) -> Result<(), AllocError>
    ensures { OnOk result (out.new ≡ out.old ++ text_of
        (data_pieces (known_by told.now.named.now.links.now) (numbers_in told.now) request.now rows.now)) }
{
    push_head(alloc, out, told.named.links(), request, rows)?;
    push_paths(out, told, rows)?;
    push_part(out, DataPart::Rows)?;
    push_members(alloc, out, told, rows)?;
    push_part(out, DataPart::End)
}

/// Adds the end of the data, the script that makes tables, and the beginning of another one.
#[tactic(auto, unfolding(crate::specs::Data::table_script_pieces))]
pub(crate) fn push_table_script(out: &mut Writer) -> Result<(), AllocError>
    ensures { OnOk result (out.new ≡ out.old ++ text_of table_script_pieces) }
{
    push_part(out, DataPart::Scripts)?;
    out.fixed(Part::Table)?;
    push_part(out, DataPart::NextScript)
}

/// Adds the data, and the scripts.
#[tactic(auto, unfolding(crate::specs::Data::tail_pieces))]
pub(crate) fn push_tail(
    alloc: Global,
    out: &mut Writer,
    told: &Numbered<'_>,
    request: &[Path],
    rows: &[Row],
) -> Result<(), AllocError>
    ensures { OnOk result (out.new ≡ out.old ++ text_of
        (tail_pieces (known_by told.now.named.now.links.now) (numbers_in told.now) request.now rows.now)) }
{
    push_part(out, DataPart::Begin)?;
    push_data(alloc, out, told, request, rows)?;
    push_table_script(out)?;
    out.fixed(Part::Graph)?;
    push_part(out, DataPart::NextScript)?;
    out.fixed(Part::Script)?;
    push_part(out, DataPart::LastScript)
}

//! The page of a report.

ghost use Rattle.std.specs.Prelude.{◌≡◌, ◌++◌, IfOk, List, OnOk, flat_map, take, ℕ};
ghost use Rattle.redo_page.specs.Html.{Reads, ReadsString, escaped, in_string, shown};
ghost use Rattle.redo_page.specs.Pages.{begin_pieces, more_pieces, most_rows, shown_pieces, table_pieces, top_pieces};
ghost use Rattle.redo_page.specs.Parts.{text_of};
ghost use Rattle.redo_page.specs.Whole.{IsPage, page_pieces};
ghost use Rattle.redo_page.specs.inside.Grouping.{numbers_in};
ghost use Rattle.redo_page.specs.inside.Links.{known_by};

use crate::data_block::{Numbered, push_tail};
use crate::failures::push_failures;
use crate::grouping::Grouping;
use crate::links::Links;
use crate::named::Named;
use crate::notes::push_notes;
use crate::parts::{Part, Tag};
use crate::rings::push_rings;
use crate::rows::push_rows;
use crate::runs::push_run;
use crate::summary::push_summary;
use crate::whys::whys_of;
use crate::writer::Writer;
use redo_diagnose::Diagnosis;
use redo_explain::reasons;
use redo_notes::Notes;
use redo_past::Past;
use redo_report::{Report, Row};
use redo_rings::Ring;
use redo_told::RunInfo;
use std::alloc::{AllocError, Global};

/// What is told on a page besides the report.
#[derive(Clone, Copy)]
pub struct Told<'a> {
    /// The status with which the program ends.
    pub status: u8,
    pub run: &'a RunInfo<'a>,
    /// In the order in which they are shown. One whose target has no row isn't.
    pub diagnoses: &'a [Diagnosis],
    pub rings: &'a [Ring],
    /// All of them are shown.
    pub notes: &'a Notes,
}

/// How many rows a page shows without its script.
const MOST_ROWS: usize = 500;

/// Adds what each page begins with.
#[tactic(auto, unfolding(crate::specs::Pages::begin_pieces))]
pub(crate) fn push_begin(out: &mut Writer) -> Result<(), AllocError>
    ensures { OnOk result (out.new ≡ out.old ++ text_of begin_pieces) }
{
    out.fixed(Part::Head)?;
    out.fixed(Part::Style)?;
    out.fixed(Part::Tag(Tag::Top))
}

/// Adds what comes before the table.
#[tactic(auto, unfolding(crate::specs::Pages::top_pieces))]
fn push_top(
    out: &mut Writer,
    links: &Links<'_>,
    rows: &[Row],
    told: &Told<'_>,
) -> Result<(), AllocError>
    ensures { OnOk result (out.new ≡ out.old ++ text_of (top_pieces (known_by links.now) told.now rows.now)) }
{
    push_begin(out)?;
    push_run(out, told.status, told.run)?;
    push_summary(out, links, rows)?;
    push_failures(out, links, told.diagnoses)?;
    push_rings(out, links, told.rings)
}

/// Adds that there are more rows, if there are.
pub(crate) fn push_more(out: &mut Writer, count: usize) -> Result<(), AllocError>
    ensures { OnOk result (out.new ≡ out.old ++ text_of (more_pieces count)) }
{
    if count > MOST_ROWS {
        out.fixed(Part::Tag(Tag::More))?;
    }
    Ok(())
}

/// The first of these rows.
pub(crate) fn first_of<T>(rows: &[T]) -> &[T]
    ensures { result.now ≡ take most_rows rows.now }
{
    if rows.len() > MOST_ROWS {
        &rows[..MOST_ROWS]
    } else {
        rows
    }
}

/// Adds the first rows, the frame of the graph, and the notes.
#[tactic(auto, unfolding(crate::specs::Pages::table_pieces))]
fn push_table(
    alloc: Global,
    out: &mut Writer,
    links: &Links<'_>,
    rows: &[Row],
    told: &Told<'_>,
) -> Result<(), AllocError>
    ensures { OnOk result (out.new ≡ out.old ++ text_of (table_pieces (known_by links.now) told.now rows.now)) }
{
    out.fixed(Part::Middle)?;
    push_more(out, rows.len())?;
    out.fixed(Part::Heads)?;
    push_rows(alloc, out, links, rows, first_of(rows))?;
    out.fixed(Part::Frame)?;
    push_notes(alloc, out, told.notes)
}

/// Adds what is shown without the script.
#[tactic(auto, unfolding(crate::specs::Pages::shown_pieces))]
fn push_shown(
    alloc: Global,
    out: &mut Writer,
    links: &Links<'_>,
    rows: &[Row],
    told: &Told<'_>,
) -> Result<(), AllocError>
    ensures { OnOk result (out.new ≡ out.old ++ text_of (shown_pieces (known_by links.now) told.now rows.now)) }
{
    push_top(out, links, rows, told)?;
    push_table(alloc, out, links, rows, told)
}

/// The page of these rows.
fn text_of_page(
    alloc: Global,
    numbered: &Numbered<'_>,
    rows: &[Row],
    told: &Told<'_>,
) -> Result<Vec<u8>, AllocError>
    ensures { IfOk result (λ text. text.items ≡ text_of
        (page_pieces (known_by numbered.now.named.now.links.now) (numbers_in numbered.now) told.now rows.now)) }
{
    let mut out = Writer::new(alloc);
    push_shown(alloc, &mut out, numbered.named.links(), rows, told)?;
    push_tail(alloc, &mut out, numbered, told.run.request, rows)?;
    Ok(out.into_bytes())
}

/// The page of a report.
fn page_of(
    alloc: Global,
    past: &Past,
    report: &Report,
    told: &Told<'_>,
) -> Result<Vec<u8>, AllocError>
    ensures { IfOk result (λ text. IsPage past.now report.now told.now text.items) }
{
    let (rows, request) = (report.rows.as_slice(), told.run.request);
    let begun = reasons(alloc, past, request, report)?;
    let whys = whys_of(alloc, past.sources(), &begun)?;
    let links = Links::of(alloc, past.tree(), rows, told.diagnoses, &whys)?;
    let named = Named::of(alloc, &links, rows)?;
    let grouping = Grouping::of(alloc, &links, request, rows)?;
    let numbered = Numbered {
        named: &named,
        grouping: &grouping,
    };
    let text = text_of_page(alloc, &numbered, rows, told)?;
    Ok(text)
}

/// The report as one page of HTML. Its script makes the table and the graph from the data that stands in it; without
/// the script it shows the first 500 rows.
///
/// `past` is that of the tree that was built. Bytes that aren't UTF-8, and control bytes, stand there as `\xNN`.
pub fn page(
    alloc: Global,
    past: &Past,
    report: &Report,
    told: &Told<'_>,
) -> Result<Vec<u8>, AllocError>
    ensures page { IfOk result (λ text. IsPage past.now report.now told.now text.items) }
    ensures read { (bytes : List ℕ) → Reads (escaped bytes) (shown bytes) }
    ensures read_in_data { (bytes : List ℕ) → ReadsString (flat_map in_string (shown bytes)) (shown bytes) }
{
    page_of(alloc, past, report, told)
}

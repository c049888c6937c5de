//! The page of a list of targets that are out of date.

ghost use Rattle.std.specs.Prelude.{◌≡◌, ◌++◌, IfOk, List, OnOk, flat_map, ℕ};
ghost use Rattle.redo_page.specs.Data.{series};
ghost use Rattle.redo_page.specs.Html.{Reads, ReadsString, escaped, in_string, shown};
ghost use Rattle.redo_page.specs.Lists.{data_pieces, datum_pieces, ending_pieces, heading_pieces};
ghost use Rattle.redo_page.specs.Lists.{list_pieces, listed_pieces};
ghost use Rattle.redo_page.specs.Parts.{text_of};

use crate::data_block::{push_comma, push_part, push_table_script};
use crate::parts::{DataPart, ListPart, Part, Tag};
use crate::whole::{first_of, push_begin, push_more};
use crate::writer::Writer;
use redo_list::Listed;
use std::alloc::{AllocError, Global};

/// Adds a target as a row of the table.
fn push_listed(out: &mut Writer, listed: &Listed) -> Result<(), AllocError>
    ensures { OnOk result (out.new ≡ out.old ++ text_of (listed_pieces listed.now)) }
{
    out.fixed(Part::List(ListPart::Row))?;
    out.text(listed.target.text())?;
    out.fixed(Part::List(ListPart::State))?;
    out.fixed(Part::State(listed.state))?;
    out.fixed(Part::Tag(Tag::Cell))?;
    out.text(&listed.why)?;
    out.fixed(Part::Tag(Tag::LineEnd))
}

/// Adds rows of the table.
fn push_all(out: &mut Writer, targets: &[Listed]) -> Result<(), AllocError>
    ensures { OnOk result (out.new ≡ out.old ++ text_of (flat_map listed_pieces targets.now)) }
{
    for target in targets {
        push_listed(out, target)?;
    }
    Ok(())
}

/// Adds a target to the data.
fn push_datum(out: &mut Writer, listed: &Listed) -> Result<(), AllocError>
    ensures { OnOk result (out.new ≡ out.old ++ text_of (datum_pieces listed.now)) }
{
    push_part(out, DataPart::Open)?;
    out.quoted(listed.target.text())?;
    push_part(out, DataPart::Comma)?;
    out.quoted(listed.state.word().as_bytes())?;
    push_part(out, DataPart::Comma)?;
    out.quoted(&listed.why)?;
    push_part(out, DataPart::Close)
}

/// Adds targets to the data, with commas between.
fn push_each(out: &mut Writer, targets: &[Listed]) -> Result<(), AllocError>
    ensures { OnOk result (out.new ≡ out.old ++
        text_of (series (λ _ listed. datum_pieces listed) 0 targets.now)) }
{
    for (place, target) in targets.iter().enumerate() {
        push_comma(out, place)?;
        push_datum(out, target)?;
    }
    Ok(())
}

/// Adds the exit status, how many targets there are, and the head of their table.
#[tactic(auto, unfolding(crate::specs::Lists::heading_pieces))]
fn push_heading(out: &mut Writer, status: u8, count: usize) -> Result<(), AllocError>
    ensures { OnOk result (out.new ≡ out.old ++ text_of (heading_pieces status count)) }
{
    out.fixed(Part::List(ListPart::Begin))?;
    out.number(u64::from(status))?;
    out.fixed(Part::List(ListPart::Count))?;
    out.number(count as u64)?;
    out.fixed(Part::List(ListPart::Form))?;
    push_more(out, count)?;
    out.fixed(Part::List(ListPart::Heads))
}

/// Adds the data.
#[tactic(auto, unfolding(crate::specs::Lists::data_pieces))]
fn push_data(out: &mut Writer, targets: &[Listed]) -> Result<(), AllocError>
    ensures { OnOk result (out.new ≡ out.old ++ text_of (data_pieces targets.now)) }
{
    out.fixed(Part::List(ListPart::Data))?;
    push_part(out, DataPart::Open)?;
    push_each(out, targets)?;
    push_part(out, DataPart::Close)
}

/// Adds the data, and the scripts.
#[tactic(auto, unfolding(crate::specs::Lists::ending_pieces))]
fn push_ending(out: &mut Writer, targets: &[Listed]) -> Result<(), AllocError>
    ensures { OnOk result (out.new ≡ out.old ++ text_of (ending_pieces targets.now)) }
{
    push_data(out, targets)?;
    push_table_script(out)?;
    out.fixed(Part::ListScript)?;
    push_part(out, DataPart::LastScript)
}

/// Adds the page.
fn push_list(out: &mut Writer, targets: &[Listed], status: u8) -> Result<(), AllocError>
    ensures { OnOk result (out.new ≡ out.old ++ text_of (list_pieces status targets.now)) }
{
    push_begin(out)?;
    push_heading(out, status, targets.len())?;
    push_all(out, first_of(targets))?;
    push_ending(out, targets)
}

/// The text of the page.
fn list_text(alloc: Global, targets: &[Listed], status: u8) -> Result<Vec<u8>, AllocError>
    ensures { IfOk result (λ text. text.items ≡ text_of (list_pieces status targets.now)) }
{
    let mut out = Writer::new(alloc);
    push_list(&mut out, targets, status)?;
    Ok(out.into_bytes())
}

/// The targets that are out of date, in this order, as one page of HTML. `status` is the status with which the program
/// ends. Its script makes the table from the data that stands in it, a list of three strings for each target: path,
/// state and why; without the script it shows the first 500 targets.
///
/// Bytes that aren't UTF-8, and control bytes, stand there as `\xNN`.
pub fn list_page(alloc: Global, targets: &[Listed], status: u8) -> Result<Vec<u8>, AllocError>
    ensures page { IfOk result (λ text. text.items ≡ text_of (list_pieces status targets.now)) }
    ensures read { (bytes : List ℕ) → Reads (escaped bytes) (shown bytes) }
    ensures read_in_data { (bytes : List ℕ) → ReadsString (flat_map in_string (shown bytes)) (shown bytes) }
{
    list_text(alloc, targets, status)
}

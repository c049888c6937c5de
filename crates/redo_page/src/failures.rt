//! Targets that failed, and where.

ghost use Rattle.std.specs.Prelude.{◌≡◌, ◌++◌, OnOk, drop, flat_map, option_copied, take};
ghost use Rattle.redo_page.specs.Pages.{diagnosis_pieces, excerpt_pieces, failures_pieces, help_pieces};
ghost use Rattle.redo_page.specs.Pages.{message_pieces, place_pieces, text_pieces, title_pieces};
ghost use Rattle.redo_page.specs.Parts.{text_of};
ghost use Rattle.redo_page.specs.inside.Links.{known_by};

use crate::links::{Links, push_link};
use crate::parts::{FailurePart, Part, Tag};
use crate::writer::Writer;
use redo_diagnose::{Diagnosis, Place};
use redo_path::Path;
use std::alloc::AllocError;

/// The first bytes of some, and the others.
fn cut(bytes: &[u8], count: u64) -> (&[u8], &[u8])
    ensures first { result.0.now ≡ take count bytes.now }
    ensures others { result.1.now ≡ drop count bytes.now }
{
    if count < bytes.len() as u64 {
        bytes.split_at(count as usize)
    } else {
        (bytes, &[])
    }
}

/// Adds the line of a place, with what is meant marked.
fn push_excerpt(out: &mut Writer, place: &Place) -> Result<(), AllocError>
    ensures { OnOk result (out.new ≡ out.old ++ text_of (excerpt_pieces place.now)) }
{
    let (before, rest) = cut(&place.text, place.column.saturating_sub(1));
    let (marked, after) = cut(rest, place.length);
    out.fixed(Part::Failure(FailurePart::Excerpt))?;
    out.number(place.line)?;
    out.fixed(Part::Failure(FailurePart::Before))?;
    out.text(before)?;
    out.fixed(Part::Failure(FailurePart::Marked))?;
    out.text(marked)?;
    out.fixed(Part::Failure(FailurePart::After))?;
    out.text(after)?;
    out.fixed(Part::Failure(FailurePart::ExcerptEnd))
}

/// Adds a paragraph of text.
fn push_text(out: &mut Writer, text: &[u8]) -> Result<(), AllocError>
    ensures { OnOk result (out.new ≡ out.old ++ text_of (text_pieces text.now)) }
{
    out.fixed(Part::Tag(Tag::Paragraph))?;
    out.text(text)?;
    out.fixed(Part::Tag(Tag::ParagraphEnd))
}

/// Adds what is wrong at a place.
fn push_place(out: &mut Writer, place: &Place, message: &[u8]) -> Result<(), AllocError>
    ensures { OnOk result (out.new ≡ out.old ++ text_of (place_pieces place.now message.now)) }
{
    out.fixed(Part::Failure(FailurePart::File))?;
    out.text(place.file.text())?;
    out.fixed(Part::Failure(FailurePart::Line))?;
    out.number(place.line)?;
    out.fixed(Part::Failure(FailurePart::Column))?;
    out.number(place.column)?;
    out.fixed(Part::Failure(FailurePart::Message))?;
    out.text(message)?;
    out.fixed(Part::Tag(Tag::ParagraphEnd))?;
    push_excerpt(out, place)
}

/// Adds what is wrong, and where, if there is a place.
fn push_message(out: &mut Writer, place: Option<&Place>, message: &[u8]) -> Result<(), AllocError>
    ensures { OnOk result (out.new ≡ out.old ++ text_of (message_pieces (option_copied place.entry) message.now)) }
{
    match place {
        Some(place) => push_place(out, place, message),
        None => push_text(out, message),
    }
}

/// Adds what to do, if there are words for it.
fn push_help(out: &mut Writer, help: &[u8]) -> Result<(), AllocError>
    ensures { OnOk result (out.new ≡ out.old ++ text_of (help_pieces help.now)) }
{
    if help.is_empty() {
        return Ok(());
    }
    push_text(out, help)
}

/// Adds the path of a target that failed, as a link to its row.
fn push_title(out: &mut Writer, number: usize, path: &Path) -> Result<(), AllocError>
    ensures { OnOk result (out.new ≡ out.old ++ text_of (title_pieces number path.now)) }
{
    out.fixed(Part::Failure(FailurePart::Article))?;
    out.number(number as u64)?;
    out.fixed(Part::Failure(FailurePart::Name))?;
    push_link(out, number, path)?;
    out.fixed(Part::Failure(FailurePart::NameEnd))
}

/// Adds a diagnosis, by the number of its target's row.
fn push_diagnosis(
    out: &mut Writer,
    number: Option<usize>,
    diagnosis: &Diagnosis,
) -> Result<(), AllocError>
    ensures { OnOk result (out.new ≡ out.old ++ text_of (diagnosis_pieces number diagnosis.now)) }
{
    let Some(number) = number else {
        return Ok(());
    };
    push_title(out, number, &diagnosis.target)?;
    push_message(out, diagnosis.place.as_ref(), &diagnosis.message)?;
    push_help(out, &diagnosis.help)?;
    out.fixed(Part::Failure(FailurePart::ArticleEnd))
}

/// Adds diagnoses.
fn push_diagnoses(
    out: &mut Writer,
    links: &Links<'_>,
    diagnoses: &[Diagnosis],
) -> Result<(), AllocError>
    ensures { OnOk result (out.new ≡ out.old ++
        text_of (flat_map (λ d. diagnosis_pieces ((known_by links.now).row_of d.target) d) diagnoses.now)) }
{
    for diagnosis in diagnoses {
        push_diagnosis(out, links.row_of(&diagnosis.target), diagnosis)?;
    }
    Ok(())
}

/// Adds the failures, if there is one.
pub(crate) fn push_failures(
    out: &mut Writer,
    links: &Links<'_>,
    diagnoses: &[Diagnosis],
) -> Result<(), AllocError>
    ensures { OnOk result (out.new ≡ out.old ++ text_of (failures_pieces (known_by links.now) diagnoses.now)) }
{
    if diagnoses.is_empty() {
        return Ok(());
    }
    out.fixed(Part::Failure(FailurePart::Begin))?;
    push_diagnoses(out, links, diagnoses)?;
    out.fixed(Part::Tag(Tag::SectionEnd))
}

//! What is stale after a build, or soon will be.

ghost use Rattle.std.specs.Prelude.{◌≡◌, ◌++◌, IfOk, OnOk, flat_map};
ghost use Rattle.redo_page.specs.Pages.{all_lines as all_lines_of, line_pieces, lines_in, notes_pieces};
ghost use Rattle.redo_page.specs.Parts.{text_of};

use crate::parts::{NotePart, Part, Tag};
use crate::writer::Writer;
use bstr::ByteSlice;
use redo_notes::{Notes, text_of as lines_of_notes};
use std::alloc::{AllocError, Global};

/// The lines of all notes, however many there are.
fn all_lines(alloc: Global, notes: &Notes) -> Result<Vec<u8>, AllocError>
    ensures { IfOk result (λ text. text.items ≡ all_lines_of notes.now) }
{
    let most = notes
        .unbuilt
        .len()
        .max(notes.unmade.len())
        .max(notes.ruleless.len());
    let text = lines_of_notes(alloc, notes, most)?;
    Ok(text)
}

/// Adds a line.
fn push_line(out: &mut Writer, line: &[u8]) -> Result<(), AllocError>
    ensures { OnOk result (out.new ≡ out.old ++ text_of (line_pieces line.now)) }
{
    out.fixed(Part::Note(NotePart::Note))?;
    out.text(line)?;
    out.fixed(Part::Tag(Tag::LineEnd))
}

/// Adds the lines of a text.
fn push_lines(out: &mut Writer, text: &[u8]) -> Result<(), AllocError>
    ensures { OnOk result (out.new ≡ out.old ++ text_of (flat_map line_pieces (lines_in text.now))) }
{
    for line in text.lines() {
        push_line(out, line)?;
    }
    Ok(())
}

/// Adds the notes, each a line, if there is one.
pub(crate) fn push_notes(alloc: Global, out: &mut Writer, notes: &Notes) -> Result<(), AllocError>
    ensures { OnOk result (out.new ≡ out.old ++ text_of (notes_pieces notes.now)) }
{
    let text = all_lines(alloc, notes)?;
    if text.is_empty() {
        return Ok(());
    }
    out.fixed(Part::Note(NotePart::Begin))?;
    push_lines(out, &text)?;
    out.fixed(Part::Note(NotePart::End))
}

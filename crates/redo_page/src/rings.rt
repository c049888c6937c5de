//! Targets that wait for themselves.

ghost use Rattle.std.specs.Prelude.{◌≡◌, ◌++◌, OnOk, flat_map};
ghost use Rattle.redo_page.specs.Pages.{member_pieces, ring_pieces, rings_pieces};
ghost use Rattle.redo_page.specs.Parts.{text_of};
ghost use Rattle.redo_page.specs.inside.Links.{known_by};

use crate::links::{Links, push_path};
use crate::parts::{Part, RingPart, Tag};
use crate::writer::Writer;
use redo_path::Path;
use redo_rings::Ring;
use std::alloc::AllocError;

/// Adds a member of a ring.
fn push_member(out: &mut Writer, links: &Links<'_>, path: &Path) -> Result<(), AllocError>
    ensures { OnOk result (out.new ≡ out.old ++ text_of (member_pieces (known_by links.now) path.now)) }
{
    out.fixed(Part::Ring(RingPart::Member))?;
    push_path(out, links.row_of(path), path)?;
    out.fixed(Part::Tag(Tag::LineEnd))
}

/// Adds the members of a ring.
fn push_members(out: &mut Writer, links: &Links<'_>, members: &[Path]) -> Result<(), AllocError>
    ensures { OnOk result (out.new ≡ out.old ++
        text_of (flat_map (member_pieces (known_by links.now)) members.now)) }
{
    for member in members {
        push_member(out, links, member)?;
    }
    Ok(())
}

/// Adds a ring.
fn push_ring(out: &mut Writer, links: &Links<'_>, ring: &Ring) -> Result<(), AllocError>
    ensures { OnOk result (out.new ≡ out.old ++ text_of (ring_pieces (known_by links.now) ring.now)) }
{
    out.fixed(Part::Ring(RingPart::Ring))?;
    push_members(out, links, &ring.members)?;
    out.fixed(Part::Ring(RingPart::Waiting))?;
    out.number(ring.waiting as u64)?;
    out.fixed(Part::Tag(Tag::ParagraphEnd))
}

/// Adds each ring.
fn push_each(out: &mut Writer, links: &Links<'_>, rings: &[Ring]) -> Result<(), AllocError>
    ensures { OnOk result (out.new ≡ out.old ++ text_of (flat_map (ring_pieces (known_by links.now)) rings.now)) }
{
    for ring in rings {
        push_ring(out, links, ring)?;
    }
    Ok(())
}

/// Adds the rings, if there is one.
pub(crate) fn push_rings(
    out: &mut Writer,
    links: &Links<'_>,
    rings: &[Ring],
) -> Result<(), AllocError>
    ensures { OnOk result (out.new ≡ out.old ++ text_of (rings_pieces (known_by links.now) rings.now)) }
{
    if rings.is_empty() {
        return Ok(());
    }
    out.fixed(Part::Ring(RingPart::Begin))?;
    push_each(out, links, rings)?;
    out.fixed(Part::Tag(Tag::SectionEnd))
}

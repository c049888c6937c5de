//! Diagnoses and rings as lines.

use crate::diagnosis::{Diagnosed, Place};
use crate::groups::{Group, groups_of};
use crate::shown::{push_shown, takes_column, width};
use redo_path::Path;
use redo_rings::Ring;
use std::alloc::{AllocError, Global};

/// A line of a script is shown with at most so many bytes and columns before the place that is meant.
const BEFORE: usize = 40;

/// At most so many columns of a line are shown.
const COLUMNS: usize = 100;

/// Adds so many blanks, or other bytes.
fn push_many(text: &mut Vec<u8>, byte: u8, count: usize) -> Result<(), AllocError> {
    for _ in 0..count {
        text.push(byte)?;
    }
    Ok(())
}

/// The bytes as they are shown, but no more of them than fit into so many columns.
fn shown_front(alloc: Global, bytes: &[u8], columns: usize) -> Result<Vec<u8>, AllocError> {
    let mut shown = Vec::new(alloc);
    // No character has more than 4 bytes.
    push_shown(
        &mut shown,
        &bytes[..bytes.len().min(columns.saturating_mul(4))],
    )?;
    let mut left = columns;
    for at in 0..shown.len() {
        if takes_column(shown[at]) {
            if left == 0 {
                shown.truncate(at);
                return Ok(shown);
            }
            left -= 1;
        }
    }
    Ok(shown)
}

/// The last of the bytes before a place as they are shown, as many as fit: no character is cut in two.
fn shown_back(alloc: Global, bytes: &[u8]) -> Result<Vec<u8>, AllocError> {
    for cut in bytes.len().saturating_sub(BEFORE)..bytes.len() {
        let mut shown = Vec::new(alloc);
        push_shown(&mut shown, &bytes[cut..])?;
        if takes_column(bytes[cut]) && width(&shown) <= BEFORE {
            return Ok(shown);
        }
    }
    Ok(Vec::new(alloc))
}

/// A line with a blank for each tab.
fn without_tabs(alloc: Global, line: &[u8]) -> Result<Vec<u8>, AllocError> {
    let mut text = Vec::with_capacity(alloc, line.len())?;
    for byte in line {
        text.push(if *byte == b'\t' { b' ' } else { *byte })?;
    }
    Ok(text)
}

/// Adds the line of a place, and below it a mark.
fn push_excerpt(alloc: Global, text: &mut Vec<u8>, place: &Place) -> Result<(), AllocError> {
    let column = usize::try_from(place.column).unwrap_or(1).saturating_sub(1);
    let length = usize::try_from(place.length).unwrap_or(0);
    let line = without_tabs(alloc, &place.text)?;
    let (before, from) = line.split_at(column.min(line.len()));
    let marked = &from[..length.min(from.len())];
    let before = shown_back(alloc, before)?;
    let room = COLUMNS.saturating_sub(width(&before));
    let from = shown_front(alloc, from, room)?;
    let marked = shown_front(alloc, marked, room)?;
    text.extend_from_slice(b"    ")?;
    text.extend_from_slice(&before)?;
    text.extend_from_slice(&from)?;
    text.extend_from_slice(b"\n    ")?;
    push_many(text, b' ', width(&before))?;
    text.push(b'^')?;
    push_many(text, b'~', width(&marked).saturating_sub(1))?;
    text.push(b'\n')?;
    Ok(())
}

/// From where places are read: by them editors open files.
#[derive(Clone, Copy)]
pub struct Stand<'a> {
    /// What leads from there to the top: nothing, or a path that ends in a slash.
    pub to_top: &'a [u8],
    /// The directory in which the reader is, from the top, if that is below it.
    pub below: &'a Path,
}

impl Stand<'_> {
    /// What is left of a path from the top behind the reader's own directory, if it is there.
    fn inside<'p>(&self, path: &'p Path) -> Option<&'p [u8]> {
        if self.below.text().is_empty() {
            return None;
        }
        path.text()
            .strip_prefix(self.below.text())?
            .strip_prefix(b"/".as_slice())
    }
}

/// Adds a place's file, line and column.
fn push_place(
    alloc: Global,
    text: &mut Vec<u8>,
    stand: &Stand<'_>,
    place: &Place,
) -> Result<(), AllocError> {
    match stand.inside(&place.file) {
        Some(path) => push_shown(text, path)?,
        None => {
            push_shown(text, stand.to_top)?;
            push_shown(text, place.file.text())?;
        }
    }
    let words = format!(in alloc; ":{}:{}: ", place.line, place.column)?;
    text.extend_from_slice(words.as_bytes())
}

/// Adds how many others wait behind a failed target, if any.
fn push_waiting(alloc: Global, text: &mut Vec<u8>, waiting: usize) -> Result<(), AllocError> {
    let words = match waiting {
        0 => return Ok(()),
        1 => format!(in alloc; " (1 more target waits behind it)")?,
        _ => format!(in alloc; " ({waiting} more targets wait behind it)")?,
    };
    text.extend_from_slice(words.as_bytes())
}

/// Adds a target's path; a dot for the top.
fn push_target(text: &mut Vec<u8>, target: &Path) -> Result<(), AllocError> {
    if target.text().is_empty() {
        text.push(b'.')?;
        return Ok(());
    }
    push_shown(text, target.text())
}

/// Adds how many other targets have the same fault, if any.
fn push_others(alloc: Global, text: &mut Vec<u8>, others: usize) -> Result<(), AllocError> {
    let words = match others {
        0 => return Ok(()),
        1 => format!(in alloc; " and 1 more target")?,
        _ => format!(in alloc; " and {others} more targets")?,
    };
    text.extend_from_slice(words.as_bytes())
}

/// Adds the lines of a diagnosis: its place, its target, and how many others it concerns, what is wrong and what to do;
/// below them the line of the script, with a mark.
fn push_diagnosis(
    alloc: Global,
    text: &mut Vec<u8>,
    stand: &Stand<'_>,
    group: &Group<'_>,
) -> Result<(), AllocError> {
    let diagnosis = group.first;
    if let Some(place) = &diagnosis.place {
        push_place(alloc, text, stand, place)?;
    }
    push_target(text, &diagnosis.target)?;
    push_others(alloc, text, group.others)?;
    text.extend_from_slice(b": ")?;
    text.extend_from_slice(&diagnosis.message)?;
    if !diagnosis.help.is_empty() {
        text.extend_from_slice(b"; ")?;
        text.extend_from_slice(&diagnosis.help)?;
    }
    push_waiting(alloc, text, group.waiting)?;
    text.push(b'\n')?;
    match &diagnosis.place {
        Some(place) if place.length > 0 => push_excerpt(alloc, text, place),
        _ => Ok(()),
    }
}

/// Adds how many more targets failed, if any.
fn push_more(alloc: Global, text: &mut Vec<u8>, more: usize) -> Result<(), AllocError> {
    let words = match more {
        0 => return Ok(()),
        1 => format!(in alloc; "and 1 more target failed\n")?,
        _ => format!(in alloc; "and {more} more targets failed\n")?,
    };
    text.extend_from_slice(words.as_bytes())
}

/// The lines of the first `most` faults of some diagnoses, as they are read from a directory, and how many more targets
/// failed. A fault of a rule that several targets share is told once.
pub fn text_of(
    alloc: Global,
    stand: &Stand<'_>,
    diagnosed: &Diagnosed,
    most: usize,
) -> Result<Vec<u8>, AllocError> {
    let groups = groups_of(alloc, &diagnosed.diagnoses)?;
    let mut text = Vec::new(alloc);
    let mut more = diagnosed.more;
    for (number, group) in groups.iter().enumerate() {
        if number < most {
            push_diagnosis(alloc, &mut text, stand, group)?;
        } else {
            more = more.saturating_add(group.others).saturating_add(1);
        }
    }
    push_more(alloc, &mut text, more)?;
    Ok(text)
}

/// Adds how many targets only wait for a ring, if any.
fn push_outside(alloc: Global, text: &mut Vec<u8>, waiting: usize) -> Result<(), AllocError> {
    let words = match waiting {
        0 => return Ok(()),
        1 => format!(in alloc; " (1 more target waits for it)")?,
        _ => format!(in alloc; " ({waiting} more targets wait for it)")?,
    };
    text.extend_from_slice(words.as_bytes())
}

/// Adds the line of a ring: its members in order, and the first once more.
fn push_ring(alloc: Global, text: &mut Vec<u8>, ring: &Ring) -> Result<(), AllocError> {
    text.extend_from_slice(b"ring: ")?;
    for member in &ring.members {
        push_target(text, member)?;
        text.extend_from_slice(b" -> ")?;
    }
    if let Some(first) = ring.members.first() {
        push_target(text, first)?;
    }
    push_outside(alloc, text, ring.waiting)?;
    text.push(b'\n')?;
    Ok(())
}

/// The lines of the first `most` of some rings, and how many more there are.
pub fn text_of_rings(alloc: Global, rings: &[Ring], most: usize) -> Result<Vec<u8>, AllocError> {
    let mut text = Vec::new(alloc);
    for ring in &rings[..most.min(rings.len())] {
        push_ring(alloc, &mut text, ring)?;
    }
    let more = rings.len().saturating_sub(most);
    if more > 0 {
        let words = match more {
            1 => format!(in alloc; "and 1 more ring\n")?,
            _ => format!(in alloc; "and {more} more rings\n")?,
        };
        text.extend_from_slice(words.as_bytes())?;
    }
    Ok(text)
}

//! Lists of what is out of date, in each form.

use crate::status;
use redo_dot::list_dot;
use redo_json::list_json;
use redo_line::Format;
use redo_list::{Listed, text_of};
use redo_page::list_page;
use redo_past::Past;
use std::alloc::{AllocError, Global};

/// A list in the wanted form. `past` is the one that it was made of.
pub(crate) fn list_in(
    alloc: Global,
    format: Format,
    past: &Past,
    listed: &[Listed],
) -> Result<Vec<u8>, AllocError> {
    let status = status::of_good(listed.is_empty());
    match format {
        Format::Report | Format::Short => text_of(alloc, listed),
        Format::Json => list_json(alloc, listed, status),
        Format::Dot(_) => list_dot(alloc, listed, past.book()),
        Format::Html => list_page(alloc, listed, status),
    }
}

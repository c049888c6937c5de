//! Questions to the previous run's book.

use crate::lists::list_in;
use crate::opening::past_of;
use crate::status::Fault;
use bstr::BStr;
use redo_bundle::{Plain, write_all};
use redo_line::{Listing, Query, Shadows, Voice};
use redo_notes::{shadowed, text_of_shadowed};
use redo_ood::out_of_date;
use redo_path::Path;
use redo_query::{Answer, answer_to};
use redo_run::Cause;
use std::alloc::Global;
use std::io;
use std::rt::Runtime;
use std::thread::Threads;

/// Prints the answer to a question, and returns whether the book knows what is asked for.
pub(crate) fn ask<H: Runtime + Threads + Sync>(
    rt: &H,
    alloc: Global,
    query: &Query,
    voice: Voice,
    cause: &mut Cause,
) -> Result<bool, Fault>
where
    H::File: Send,
    H::Dir: Send,
{
    let (past, unseen) = past_of(rt, alloc, &query.input, query.workers, cause)?;
    match answer_to(alloc, &past, &query.question)? {
        Answer::Lines(text) => {
            let mut writer = Plain::new(io::writer(rt));
            write_all(&mut writer, &text)?;
            unseen.note(rt, voice);
            Ok(true)
        }
        Answer::Unknown(nearest) => {
            show_unknown(rt, nearest);
            unseen.note(rt, voice);
            Ok(false)
        }
    }
}

/// Prints which targets of the book are out of date, and returns whether none is. With targets, the list is about a
/// run that requests only these.
pub(crate) fn list_out_of_date<H: Runtime + Threads + Sync>(
    rt: &H,
    alloc: Global,
    listing: &Listing,
    voice: Voice,
    cause: &mut Cause,
) -> Result<bool, Fault>
where
    H::File: Send,
    H::Dir: Send,
{
    let (past, unseen) = past_of(rt, alloc, &listing.input, listing.workers, cause)?;
    let listed = out_of_date(alloc, &past, &listing.targets)?;
    let text = list_in(alloc, listing.format, &past, &listed)?;
    write_all(&mut Plain::new(io::writer(rt)), &text)?;
    unseen.note(rt, voice);
    Ok(listed.is_empty())
}

/// Prints the sources that have a rule, which no build makes.
pub(crate) fn list_shadowed<H: Runtime + Threads + Sync>(
    rt: &H,
    alloc: Global,
    shadows: &Shadows,
    voice: Voice,
    cause: &mut Cause,
) -> Result<bool, Fault>
where
    H::File: Send,
    H::Dir: Send,
{
    let (past, unseen) = past_of(rt, alloc, &shadows.input, shadows.workers, cause)?;
    let text = text_of_shadowed(alloc, &shadowed(alloc, &past)?)?;
    write_all(&mut Plain::new(io::writer(rt)), &text)?;
    unseen.note(rt, voice);
    Ok(true)
}

/// Says that the book doesn't know a path, and names the nearest one that it knows, if there is one.
fn show_unknown<H: Runtime>(rt: &H, nearest: Option<&Path>) {
    let _shown = match nearest {
        Some(path) => {
            let name = BStr::new(path.text());
            eprintln!(rt; "redo: not in the book; the nearest name is {name:?}")
        }
        None => eprintln!(rt; "redo: not in the book"),
    };
}

//! A directory as a bundle.

use crate::status::Fault;
use crate::unseen::note_passed;
use crate::{buffered, flush};
use redo_bundle::Plain;
use redo_dir::SystemView;
use redo_line::Packing;
use redo_pack::{PackFault, pack};
use redo_run::{Cause, load};
use redo_tree::Tree;
use std::alloc::Global;
use std::io;
use std::rt::Runtime;
use std::thread::Threads;

/// Prints a directory as a bundle.
pub(crate) fn pack_dir<H: Runtime + Threads + Sync>(
    rt: &H,
    alloc: Global,
    packing: &Packing,
    cause: &mut Cause,
) -> Result<bool, Fault>
where
    H::File: Send,
    H::Dir: Send,
{
    let dir = SystemView::new(rt, &packing.dir);
    let (tree, passed) = load(rt, alloc, &dir, packing.workers, cause)?;
    print(rt, alloc, &tree)?;
    note_passed(rt, passed);
    Ok(true)
}

/// Prints a tree as a bundle.
fn print<H: Runtime>(rt: &H, alloc: Global, tree: &Tree) -> Result<(), Fault> {
    let mut writer = Plain::new(buffered(alloc, io::writer(rt))?);
    let outcome = match pack(alloc, &mut writer, tree) {
        Ok(()) => flush(&mut writer.stream),
        // A file that is too large for a bundle can't be written into one.
        Err(PackFault::TooLarge(_) | PackFault::Device) => Err(Fault::Output),
        Err(PackFault::Memory) => Err(Fault::Memory),
    };
    // After a failed write the rest isn't tried again, as it would be if the buffer were dropped.
    let (_out, _unwritten) = writer.stream.into_parts();
    outcome
}

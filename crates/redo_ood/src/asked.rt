//! Which paths a run is asked about.

ghost use Rattle.std.specs.Prelude.{◌≡◌, ◌↔◌, IfOk, List, OnOk, ℕ, flat_map, true};
ghost use Rattle.std.specs.Cmp.Lexicographic.{slice_cmp};
ghost use Rattle.std.specs.List.Sorted.{IsStrictlySortedBy};
ghost use Rattle.std.specs.Ordering.{nat_cmp};
ghost use Rattle.redo_names.specs.Paths.{IsAmong, is_among};
ghost use Rattle.redo_book.specs.Book.{IsBook, targets_of};
ghost use Rattle.redo_step.specs.Limits.{LimitsView};
ghost use Rattle.redo_ood.specs.Listing.{AreAskedAbout, RestsOn, changed, run_over};
ghost use Rattle.redo_ood.specs.inside.Resting.{IsGrown, changes_in};

use redo_book::BookEntry;
use redo_names::PathSet;
use redo_past::{Past, has_rule};
use redo_path::Path;
use std::alloc::{AllocError, Global};

/// Adds the path of a `change`.
fn add_path(found: &mut PathSet, entry: &BookEntry) -> Result<(), AllocError>
    ensures { OnOk result (IsGrown found.old (changed entry.now) found.new) }
{
    match entry {
        BookEntry::Change(_, path) => {
            found.insert(path.clone()?)?;
            Ok(())
        }
        BookEntry::Create(_) | BookEntry::Always => Ok(()),
    }
}

/// Adds the path of each `change` among these entries.
fn add_paths(found: &mut PathSet, entries: &[BookEntry]) -> Result<(), AllocError>
    ensures { OnOk result (IsGrown found.old (flat_map changed entries.now) found.new) }
{
    for entry in entries {
        add_path(found, entry)?;
    }
    Ok(())
}

/// Adds the paths that a path with a rule rests on by its record.
fn follow(alloc: Global, past: &Past, found: &mut PathSet, path: &Path) -> Result<(), AllocError>
    ensures { OnOk result (IsGrown found.old (changes_in past.now path.now) found.new) }
{
    if !has_rule(alloc, past.sources(), path)? {
        return Ok(());
    }
    match past.book().find(path) {
        Some(made) => {
            add_paths(found, &made.entries)?;
            Ok(())
        }
        None => Ok(()),
    }
}

/// The requested paths, and what they rest on. Each that is found is followed once, in the order in which they were
/// found.
fn resting(alloc: Global, past: &Past, request: &[Path]) -> Result<PathSet, AllocError>
    ensures { IfOk result (λ found. (limits : LimitsView) (p : List ℕ) →
        (is_among found p ≡ true) ↔ RestsOn (run_over past.now request.now limits) p) }
{
    let mut found = PathSet::of_paths(alloc, request)?;
    for number in 0..usize::MAX {
        if number >= found.len() {
            return Ok(found);
        }
        let path = found.at(number).clone()?;
        follow(alloc, past, &mut found, &path)?;
    }
    // No set of so many paths fits into memory.
    Err(AllocError)
}

/// The paths of a set, in their order.
fn in_order(set: PathSet) -> Vec<Path>
    ensures among { (p : List ℕ) → IsAmong result.items p ↔ IsAmong set p }
    ensures ordered { IsStrictlySortedBy (slice_cmp nat_cmp) result.items }
{
    set.each_once();
    let mut paths = set.into_paths();
    paths.sort_unstable();
    paths
}

/// The targets of a book, in path order.
fn targets(alloc: Global, past: &Past) -> Result<Vec<Path>, AllocError>
    ensures { IfOk result (λ paths. (paths.items ≡ targets_of past.now.book) × IsBook past.now.book) }
{
    let records = past.book().records();
    let mut paths = Vec::with_capacity(alloc, records.len())?;
    for made in records {
        let target = made.target.clone()?;
        paths.push(target)?;
    }
    Ok(paths)
}

/// The paths that a run is asked about that requests these paths, in path order.
pub(crate) fn asked_about(
    alloc: Global,
    past: &Past,
    request: &[Path],
) -> Result<Vec<Path>, AllocError>
    ensures { IfOk result (λ asked. (limits : LimitsView) →
        AreAskedAbout (run_over past.now request.now limits) asked.items) }
{
    if request.is_empty() {
        Ok(targets(alloc, past)?)
    } else {
        Ok(in_order(resting(alloc, past, request)?))
    }
}

//! The list of what is out of date.

ghost use Rattle.std.specs.Prelude.{◌≡◌, ◌<◌, ◌++◌, IfOk, OnOk, Some, flat_map, length, map, slice_get};
ghost use Rattle.redo_book.specs.Book.{Record};
ghost use Rattle.redo_list.specs.Lists.{listed_view};
ghost use Rattle.redo_step.specs.Limits.{LimitsView};
ghost use Rattle.redo_ood.specs.Listing.{IsList, listed_at, listed_for, run_over};
ghost use Rattle.redo_ood.specs.inside.Outlooks.{AreKnown, InEachRun};

use crate::asked::asked_about;
use crate::items::rows_of;
use crate::told::{push_told, push_unrecorded};
use crate::verdicts::{Row, Verdict, verdicts};
use crate::words::word_of;
use redo_list::Listed;
use redo_names::PathSet;
use redo_past::Past;
use redo_path::Path;
use std::alloc::{AllocError, Global};

/// What is known of a run before any script is begun: the past that it goes on from, what it requests, and the rows and
/// verdicts of the book.
#[derive(Clone, Copy)]
struct Outlook<'a> {
    past: &'a Past,
    requested: &'a PathSet,
    rows: &'a [Row],
    table: &'a [Option<Verdict>],
}

/// Adds the target of the record with this number, if it is listed.
fn push_recorded(
    alloc: Global,
    listed: &mut Vec<Listed>,
    outlook: &Outlook<'_>,
    number: usize,
) -> Result<(), AllocError>
    requires known { AreKnown outlook.now }
    requires number { number < length outlook.now.past.now.book }
    ensures { OnOk result (InEachRun outlook.now.past.now outlook.now.requested.now (λ given. (r : Record) →
        slice_get given.past.book number ≡ Some r → map listed_view listed.new.items ≡
        map listed_view listed.old.items ++ listed_for given r)) }
{
    let made = &outlook.past.book().records()[number];
    let items = &outlook.rows[number].items;
    let word = word_of(alloc, outlook.past, made, items, outlook.table)?;
    push_told(alloc, listed, outlook.past.sources(), &made.target, word)?;
    Ok(())
}

/// Adds a path, if it is listed.
fn push_path(
    alloc: Global,
    listed: &mut Vec<Listed>,
    outlook: &Outlook<'_>,
    path: &Path,
) -> Result<(), AllocError>
    requires { AreKnown outlook.now }
    ensures { OnOk result (InEachRun outlook.now.past.now outlook.now.requested.now (λ given.
        map listed_view listed.new.items ≡ map listed_view listed.old.items ++ listed_at given path.now)) }
{
    match outlook.past.book().number_of(path) {
        Some(number) => push_recorded(alloc, listed, outlook, number)?,
        None => push_unrecorded(
            alloc,
            listed,
            outlook.past.sources(),
            outlook.requested,
            path,
        )?,
    }
    Ok(())
}

/// What is listed of these paths.
fn list_of(alloc: Global, outlook: &Outlook<'_>, asked: &[Path]) -> Result<Vec<Listed>, AllocError>
    requires { AreKnown outlook.now }
    ensures { IfOk result (λ listed. InEachRun outlook.now.past.now outlook.now.requested.now (λ given.
        map listed_view listed.items ≡ flat_map (listed_at given) asked.now)) }
{
    let mut listed = Vec::new(alloc);
    for path in asked {
        push_path(alloc, &mut listed, outlook, path)?;
    }
    Ok(listed)
}

/// Lists, in path order, the targets that the next run would or may begin if it needs them, and those that can't be
/// made; nothing if all are up to date. Without a request the list covers all targets of the book, each for every run
/// that doesn't request it. With a request it is for the run that requests these paths, and covers them and what they
/// rest on by the records. A requested target is listed by its own record, like any other, though the run begins it
/// in any case; what rests on it may come out otherwise. Without a record, a target is listed, too, and so is a
/// requested path that is no file and has no rule.
pub fn out_of_date(alloc: Global, past: &Past, request: &[Path]) -> Result<Vec<Listed>, AllocError>
    ensures { IfOk result (λ listed. (limits : LimitsView) →
        IsList (run_over past.now request.now limits) (map listed_view listed.items)) }
{
    let requested = PathSet::of_paths(alloc, request)?;
    let rows = rows_of(alloc, past, &requested)?;
    let table = verdicts(alloc, &rows)?;
    let asked = asked_about(alloc, past, request)?;
    let outlook = Outlook {
        past,
        requested: &requested,
        rows: &rows,
        table: &table,
    };
    let listed = list_of(alloc, &outlook, &asked)?;
    Ok(listed)
}

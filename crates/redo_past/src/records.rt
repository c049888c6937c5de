//! The records of the new book. Those of targets that were built are written line by line.

ghost use Rattle.std.specs.Prelude.{◌≡◌, ◌∷◌, [], codes, false, flat_map, is_err, option_copied};
ghost use Rattle.redo_path.specs.Names.{IsPath};
ghost use Rattle.redo_bundle.specs.Bundle.{Writes};
ghost use Rattle.redo_record.specs.declared.deps.DepKind.TheVariants as kinds;
ghost use Rattle.redo_record.specs.Entries.{change_of, creates};
ghost use Rattle.redo_book.specs.Book.{record_lines, text_of};
ghost use Rattle.redo_book.specs.Noted.{is_top as is_root};
ghost use Rattle.redo_past.specs.NewBook.{is_built as was_built, record_of_row as record_for};
ghost use Rattle.redo_past.specs.inside.Books.{StatesView, item_text, leaves_record, noted_text};

use crate::items::BookItem;
use crate::states::{States, built_state};
use redo_book::{write_always, write_change, write_create, write_target};
use redo_bundle::{Broken, ByteOut, write_all};
use redo_path::Path;
use redo_record::{Dep, DepKind, Outcome, Record};
use redo_report::{Row, write_missing};
use redo_which::{Missing, MissingLines};

/// Whether a target was built.
pub(crate) fn is_built(outcome: &Outcome) -> bool
    ensures { result ≡ was_built outcome.now }
{
    matches!(outcome, Outcome::Built(_))
}

/// Whether a path is the top directory.
pub(crate) fn is_top(path: &Path) -> bool
    ensures top { result ≡ is_root path.now }
    ensures path { IsPath path.now }
{
    path.text().is_empty()
}

/// Whether the new book has a record of a row's target: it was built, and isn't the top directory.
pub(crate) fn has_record(row: &Row) -> bool
    ensures { result ≡ leaves_record row.now }
{
    is_built(&row.outcome) && !is_top(&row.path)
}

/// Writes a `change` of a path, with the state that it has now. A book has none of the top directory.
fn write_changed<W: ByteOut>(
    out: &mut W,
    states: &mut States<'_>,
    path: &Path,
) -> Result<(), Broken>
    requires { W.has_failed out.old ≡ false }
    ensures writes { Writes (W.held out.old) (W.held out.new) result
        (noted_text states.old (record { kind = kinds.Change; path = path.now } ∷ [])) }
    ensures failed { W.has_failed out.new ≡ is_err result }
    ensures same { states.new ≡ states.old }
{
    if is_top(path) {
        return Ok(());
    }
    let state = states.state_at(path);
    write_change(out, &state, path)
}

/// Writes a `create` of a path. A book has none of the top directory.
fn write_created<W: ByteOut>(out: &mut W, path: &Path) -> Result<(), Broken>
    requires { W.has_failed out.old ≡ false }
    ensures writes { (states : StatesView) → Writes (W.held out.old) (W.held out.new) result
        (noted_text states (record { kind = kinds.Create; path = path.now } ∷ [])) }
    ensures failed { W.has_failed out.new ≡ is_err result }
{
    if is_top(path) {
        return Ok(());
    }
    write_create(out, path)
}

/// Writes an `always`, which has the top directory as its path. With any other path there is no such entry.
fn write_made_again<W: ByteOut>(out: &mut W, path: &Path) -> Result<(), Broken>
    requires { W.has_failed out.old ≡ false }
    ensures writes { (states : StatesView) → Writes (W.held out.old) (W.held out.new) result
        (noted_text states (record { kind = kinds.Always; path = path.now } ∷ [])) }
    ensures failed { W.has_failed out.new ≡ is_err result }
{
    if is_top(path) {
        return write_always(out);
    }
    Ok(())
}

/// Writes an entry as a book has it.
fn write_entry<W: ByteOut>(out: &mut W, states: &mut States<'_>, dep: &Dep) -> Result<(), Broken>
    requires { W.has_failed out.old ≡ false }
    ensures writes { Writes (W.held out.old) (W.held out.new) result (noted_text states.old (dep.now ∷ [])) }
    ensures failed { W.has_failed out.new ≡ is_err result }
    ensures same { states.new ≡ states.old }
{
    match dep.kind {
        DepKind::Change => write_changed(out, states, &dep.path),
        DepKind::Create => write_created(out, &dep.path),
        DepKind::Always => write_made_again(out, &dep.path),
    }
}

/// Writes what a script declared, entry by entry.
fn write_own<W: ByteOut>(out: &mut W, states: &mut States<'_>, own: &[Dep]) -> Result<(), Broken>
    requires { W.has_failed out.old ≡ false }
    ensures writes { Writes (W.held out.old) (W.held out.new) result (noted_text states.old own.now) }
    ensures failed { W.has_failed out.new ≡ is_err result }
    ensures same { states.new ≡ states.old }
{
    for dep in own {
        write_entry(out, states, dep)?;
    }
    Ok(())
}

/// Writes the entry of a record's .do file, if it has one.
fn write_do_file<W: ByteOut>(
    out: &mut W,
    states: &mut States<'_>,
    do_file: Option<&Path>,
) -> Result<(), Broken>
    requires { W.has_failed out.old ≡ false }
    ensures writes { Writes (W.held out.old) (W.held out.new) result
        (noted_text states.old (change_of (option_copied do_file.entry))) }
    ensures failed { W.has_failed out.new ≡ is_err result }
    ensures same { states.new ≡ states.old }
{
    match do_file {
        Some(path) => write_changed(out, states, path),
        None => Ok(()),
    }
}

/// Writes the entries of the missing candidates.
fn write_candidates<'a, W: ByteOut>(
    out: &mut W,
    lines: &mut MissingLines<'a>,
    missing: &'a Missing,
) -> Result<(), Broken>
    requires works { W.has_failed out.old ≡ false }
    requires front { lines.old.0 ≡ codes "create " }
    ensures front { lines.new.0 ≡ lines.old.0 }
    ensures writes { (states : StatesView) → Writes (W.held out.old) (W.held out.new) result
        (noted_text states (creates missing.now)) }
    ensures failed { W.has_failed out.new ≡ is_err result }
{
    missing.each_below();
    write_missing(out, lines, missing)
}

/// Writes the entries of a record as a book has them, without making them.
fn write_entries<'a, W: ByteOut>(
    out: &mut W,
    states: &mut States<'_>,
    lines: &mut MissingLines<'a>,
    deps: &'a Record,
) -> Result<(), Broken>
    requires works { W.has_failed out.old ≡ false }
    requires front { lines.old.0 ≡ codes "create " }
    ensures front { lines.new.0 ≡ lines.old.0 }
    ensures writes { Writes (W.held out.old) (W.held out.new) result (noted_text states.old deps.now) }
    ensures failed { W.has_failed out.new ≡ is_err result }
    ensures same { states.new ≡ states.old }
{
    let parts = deps.parts();
    write_candidates(out, lines, parts.missing)?;
    write_do_file(out, states, parts.do_file)?;
    write_own(out, states, parts.own)
}

/// Writes the record of a target that was built.
fn write_built<'a, W: ByteOut>(
    out: &mut W,
    states: &mut States<'_>,
    lines: &mut MissingLines<'a>,
    row: &'a Row,
) -> Result<(), Broken>
    requires works { W.has_failed out.old ≡ false }
    requires front { lines.old.0 ≡ codes "create " }
    ensures front { lines.new.0 ≡ lines.old.0 }
    ensures writes { Writes (W.held out.old) (W.held out.new) result
        (text_of (record_lines (record_for states.old.sources states.old.rows row.now))) }
    ensures failed { W.has_failed out.new ≡ is_err result }
    ensures same { states.new ≡ states.old }
{
    write_target(out, &row.path, &built_state(&row.outcome))?;
    write_entries(out, states, lines, &row.deps)
}

/// Writes a record of the new book.
fn write_item<'a, W: ByteOut>(
    out: &mut W,
    states: &mut States<'_>,
    lines: &mut MissingLines<'a>,
    item: &BookItem<'a>,
) -> Result<(), Broken>
    requires works { W.has_failed out.old ≡ false }
    requires front { lines.old.0 ≡ codes "create " }
    ensures front { lines.new.0 ≡ lines.old.0 }
    ensures writes { Writes (W.held out.old) (W.held out.new) result (item_text states.old item.now) }
    ensures failed { W.has_failed out.new ≡ is_err result }
    ensures same { states.new ≡ states.old }
{
    match item {
        BookItem::Built(row) => write_built(out, states, lines, row),
        BookItem::Carried(old) => write_all(out, old.text()),
    }
}

/// Writes the records of the new book.
pub(crate) fn write_items<'a, W: ByteOut>(
    out: &mut W,
    states: &mut States<'_>,
    mut lines: MissingLines<'a>,
    items: &[BookItem<'a>],
) -> Result<(), Broken>
    requires works { W.has_failed out.old ≡ false }
    requires front { lines.0 ≡ codes "create " }
    ensures writes { Writes (W.held out.old) (W.held out.new) result (flat_map (item_text states.old) items.now) }
    ensures failed { W.has_failed out.new ≡ is_err result }
    ensures same { states.new ≡ states.old }
{
    for item in items {
        write_item(out, states, &mut lines, item)?;
    }
    Ok(())
}

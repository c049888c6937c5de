//! The check of a target: its recorded entries are looked at in order, each once, before its script is begun.
ghost use Rattle.std.specs.Prelude.{◌≡◌, ◌+◌, ◌<◌, ◌≤◌, ℕ, List, [], true, false, map, IfNone, IfOk, IfSome};
ghost use Rattle.std.specs.Prelude.{MatchOption, None, OnOk, Some, length, option_and_then, option_copied, slice_get};
ghost use Rattle.std.specs.Prelude.{take};
ghost use Rattle.redo_record.specs.declared.deps.DepKind.TheVariants as kinds;
ghost use Rattle.redo_record.specs.declared.outcome.Outcome.TheVariants as outcomes;
ghost use Rattle.redo_record.specs.Entries.{with_all, with_entry};
ghost use Rattle.redo_book.specs.Book.{IsRecord, record_of as record_in};
ghost use Rattle.redo_build.specs.Rules.{Ask};
ghost use Rattle.redo_build.specs.Schedule.{nothing_known};
ghost use Rattle.redo_skip.specs.Checks.{shown as shown_as};
ghost use Rattle.redo_tree.specs.Tree.{file_at};
ghost use Rattle.redo_rules.specs.Build.{checks_for, rules_for, sources_for};
ghost use Rattle.redo_core.specs.inside.Checking.{FallsBehind, IsBegunBehind, IsCheckedBy, IsDueCheck, IsInCheck};
ghost use Rattle.redo_core.specs.inside.Checking.{IsWaitingCheck, IsWalkedTo, asks_next, entries_in, seen_entries};
ghost use Rattle.redo_core.specs.inside.Checking.{state_of_entry};

use crate::given::Given;
use redo_book::{BookEntry, BookRecord};
use redo_digest::Digest;
use redo_path::Path;
use redo_record::{Dep, DepKind, Deps, Outcome, Record};
use redo_rules::{Alone, is_as_recorded, standing_alone};
use redo_tree::Content;
use std::alloc::{AllocError, Global};

/// The check of a target, as far as it has come. The next entry asks for a path or waits for its answer, or there is
/// none: then the target is kept.
#[derive(Drop)]
pub struct Check {
    /// The number of the target's record in the book.
    pub number: usize,
    /// How many of its entries stand, from the first on.
    pub stood: usize,
    /// The paths that it has asked for, each once.
    pub asked: Deps,
}

/// Passes over the entries that stand without any answer, from this index on. Returns the index of the first that asks
/// for a path, or the number of entries if none does; `None` if an entry falls before.
fn walk(
    alloc: Global,
    given: &Given,
    entries: &[BookEntry],
    from: usize,
) -> Result<Option<usize>, AllocError>
    requires { from ≤ length entries.now }
    ensures walked { IfOk result (λ r. IfSome r (IsWalkedTo (sources_for given.now) entries.now from)) }
    ensures falls { IfOk result (λ r. IfNone r (FallsBehind (sources_for given.now) entries.now from)) }
{
    for at in from..entries.len() {
        match standing_alone(alloc, given.sources(), &entries[at])? {
            Alone::Stands => {}
            Alone::Asks => return Ok(Some(at)),
            Alone::Falls => return Ok(None),
        }
    }
    Ok(Some(entries.len()))
}

/// The number of the record of a target with a rule, if it is in check: it isn't requested, and is as the last run left
/// it.
fn record_in_check(given: &Given, target: &Path) -> Option<usize>
    requires { (rules_for given.now).has_rule target.now ≡ true }
    ensures { MatchOption result (checks_for given.now target.now ≡ None) (IsCheckedBy given.now target.now) }
{
    if given.is_requested(target) {
        return None;
    }
    given.past().intact(target)
}

/// A record of the book.
fn record_of<'a>(given: &'a Given, number: usize) -> &'a BookRecord
    requires { number < length given.now.past.book }
    ensures there { slice_get given.now.past.book number ≡ Some (record_in result.now) }
    ensures is_record { IsRecord (record_in result.now) }
{
    &given.past().book().records()[number]
}

/// The recorded state of the entry at an index, if that is a `change`.
fn state_at<'a>(entries: &'a [BookEntry], at: usize) -> Option<&'a Option<Digest>>
    ensures { option_copied result ≡ option_and_then state_of_entry (slice_get entries.now at) }
{
    match entries.get(at) {
        Some(BookEntry::Change(state, _)) => Some(state),
        _ => None,
    }
}

/// The entries up to and including the one at an index.
fn up_to<'a>(entries: &'a [BookEntry], at: usize) -> &'a [BookEntry]
    ensures { result.now ≡ take (at + 1) entries.now }
{
    if at < entries.len() {
        &entries[..at + 1]
    } else {
        entries
    }
}

/// The file at a path of the tree as it was read. Its bytes aren't copied.
fn file_as_read(given: &Given, path: &Path) -> Result<Option<Content>, AllocError>
    ensures { IfOk result (λ file. file ≡ file_at given.now.past.tree path.now) }
{
    match given.past().tree().content(path) {
        Some(content) => Ok(Some(content.clone()?)),
        None => Ok(None),
    }
}

/// An entry as a report shows it.
fn shown(entry: &BookEntry) -> Result<Dep, AllocError>
    ensures { IfOk result (λ dep. dep ≡ shown_as entry.now) }
{
    let (kind, path) = match entry {
        BookEntry::Change(_, path) => (DepKind::Change, path.clone()?),
        BookEntry::Create(path) => (DepKind::Create, path.clone()?),
        BookEntry::Always => (DepKind::Always, Path::root()),
    };
    Ok(Dep { kind, path })
}

/// Entries as a report shows them.
fn all_shown(alloc: Global, entries: &[BookEntry]) -> Result<Deps, AllocError>
    ensures { IfOk result (λ deps. deps ≡ with_all [] (map shown_as entries.now)) }
{
    let mut deps = Deps::new(alloc);
    deps.reserve(entries.len())?;
    for entry in entries {
        deps.insert(shown(entry)?)?;
    }
    Ok(deps)
}

impl Check {
    /// The check of a target with a rule, which is due. `None` if the target isn't in check, or if an entry falls
    /// before one asks for a path: its script is begun at once.
    pub(crate) fn of(
        alloc: Global,
        given: &Given,
        target: &Path,
    ) -> Result<Option<Check>, AllocError>
        requires { (rules_for given.now).has_rule target.now ≡ true }
        ensures none { IfOk result (λ c. IfNone c (IsBegunBehind given.now target.now [] nothing_known)) }
        ensures due { IfOk result (λ c. IfSome c (λ check. (check.asked ≡ []) ×
            ((a : Ask) → IsDueCheck given.now target.now a check))) }
    {
        let Some(number) = record_in_check(given, target) else {
            return Ok(None);
        };
        let entries = &record_of(given, number).entries;
        let Some(stood) = walk(alloc, given, entries, 0)? else {
            return Ok(None);
        };
        Ok(Some(Check {
            number,
            stood,
            asked: Deps::new(alloc),
        }))
    }

    /// The path that a due check asks for next; `None` if its target is kept.
    pub(crate) fn next<'a>(&self, given: &'a Given) -> Option<&'a Path>
        requires { self.now.number < length given.now.past.book }
        ensures { option_copied result ≡ asks_next given.now self.now }
    {
        match record_of(given, self.number).entries.get(self.stood) {
            Some(BookEntry::Change(_, path)) => Some(path),
            _ => None,
        }
    }

    /// Asks for that path, and waits from now on.
    pub(crate) fn ask(&mut self, path: &Path) -> Result<(), AllocError>
        ensures { OnOk result (self.new ≡ record self.old { asked = with_entry self.old.asked kinds.Change path.now }) }
    {
        let path = path.clone()?;
        self.asked.insert(Dep {
            kind: DepKind::Change,
            path,
        })
    }

    /// Goes on with the answer that it waited for. Returns whether it is due again; if not, an entry falls.
    pub(crate) fn go_on(
        &mut self,
        alloc: Global,
        given: &Given,
        outcome: &Outcome,
    ) -> Result<bool, AllocError>
        requires { self.old.number < length given.now.past.book }
        ensures asked { self.new.asked ≡ self.old.asked }
        ensures stands { IfOk result (λ stands. stands ≡ true → (p : List ℕ) (a : Ask) (q : List ℕ) →
            IsWaitingCheck given.now p a q self.old → a q ≡ Some outcome.now → IsDueCheck given.now p a self.new) }
        ensures falls { IfOk result (λ stands. stands ≡ false → (p : List ℕ) (a : Ask) (q : List ℕ) →
            IsWaitingCheck given.now p a q self.old → a q ≡ Some outcome.now →
            IsBegunBehind given.now p self.old.asked a) }
    {
        let entries = &record_of(given, self.number).entries;
        let Some(state) = state_at(entries, self.stood) else {
            return Ok(false);
        };
        if !is_as_recorded(outcome, state) {
            return Ok(false);
        }
        let Some(stood) = walk(alloc, given, entries, self.stood + 1)? else {
            return Ok(false);
        };
        self.stood = stood;
        Ok(true)
    }

    /// What a target is kept with, if its due check asks for nothing more: its file, which isn't copied, and its record
    /// as a report shows it.
    pub(crate) fn kept(&self, alloc: Global, given: &Given) -> Result<(Outcome, Record), AllocError>
        requires { self.now.number < length given.now.past.book }
        ensures outcome { IfOk result (λ kept. (p : List ℕ) → IsInCheck given.now p self.now.number →
            kept.0 ≡ outcomes.Built (file_at given.now.past.tree p)) }
        ensures record { IfOk result (λ kept. kept.1 ≡ map shown_as (entries_in given.now self.now)) }
    {
        let made = record_of(given, self.number);
        let deps = all_shown(alloc, &made.entries)?;
        let outcome = Outcome::Built(file_as_read(given, &made.target)?);
        Ok((outcome, Record::of_entries(deps)))
    }

    /// The record of a target that waits in its check at the end: the entries up to and including the one that waits.
    pub(crate) fn seen(&self, alloc: Global, given: &Given) -> Result<Record, AllocError>
        requires { self.now.number < length given.now.past.book }
        ensures { IfOk result (λ r. r ≡ seen_entries given.now self.now) }
    {
        let seen = up_to(&record_of(given, self.number).entries, self.stood);
        Ok(Record::of_entries(all_shown(alloc, seen)?))
    }
}

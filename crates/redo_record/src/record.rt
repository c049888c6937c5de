//! The record of a target.

ghost use Rattle.std.specs.Prelude.{◌≡◌, ◌∷◌, ◌++◌, [], List, IfOk, OnOk, Some, option_copied};
ghost use Rattle.redo_record.specs.declared.deps.Dep.{Dep};
ghost use Rattle.redo_record.specs.declared.deps.DepKind.TheVariants as kinds;
ghost use Rattle.redo_record.specs.Entries.{change_of, creates, entries_of, search_entries, is_entered, with_entries};
ghost use Rattle.redo_record.specs.Entries.{AreOnce, search_deps, with_all};

use crate::deps::{Dep, DepKind, Deps};
use redo_path::Path;
use redo_which::{Missing, Rule};
use std::alloc::{AllocError, Global};
use std::marker::Model;

/// When a target must be rebuilt: the candidates that the search for its rule missed, the .do file, and then what its
/// script declared, each once. In a contract it is the list of these entries. The candidates are stored as their
/// number, since they follow from the target.
#[derive(Drop)]
pub struct Record {
    missing: Missing,
    do_file: Option<Path>,
    own: Deps,
}

impl Model for Record {
    ghost use Rattle.std.specs.Prelude.{List};
    ghost use Rattle.redo_record.specs.declared.deps.Dep.{Dep};
    ghost use Rattle.redo_record.specs.Entries.{AreOnce, entries_of};

    ghost Value = { List Dep };

    ghost view = { λ r. entries_of r.missing r.do_file r.own };

    ghost invariant = { λ r. AreOnce (entries_of r.missing r.do_file r.own) };
}

/// The parts of a record, in the order of its entries.
#[derive(Drop)]
pub struct Parts<'a> {
    /// The missing candidates.
    pub missing: &'a Missing,
    /// The .do file, if there is a rule.
    pub do_file: Option<&'a Path>,
    /// What the script declared, without what the search had entered already.
    pub own: &'a [Dep],
}

impl Record {
    /// The record of a source, without entries.
    pub fn none(alloc: Global) -> Record
        ensures { result ≡ [] }
    {
        Record {
            missing: Missing::none(),
            do_file: None,
            own: Deps::new(alloc),
        }
    }

    /// The record of a target without a rule.
    pub fn of_search(alloc: Global, missing: Missing) -> Record
        ensures { result ≡ with_entries [] kinds.Create missing }
    {
        missing.each_once();
        Record {
            missing,
            do_file: None,
            own: Deps::new(alloc),
        }
    }

    /// The record of a target whose script has ended and declared this. The declared entries are taken over; they are
    /// copied only if the search has entered some of them already.
    pub fn of_script(alloc: Global, rule: Rule, declared: Deps) -> Result<Record, AllocError>
        ensures { IfOk result (λ deps. deps ≡ with_all (search_deps rule.missing rule.do_file) declared) }
    {
        rule.missing.each_once();
        let own = without_found(alloc, &rule, declared)?;
        Ok(Record {
            missing: rule.missing,
            do_file: Some(rule.do_file),
            own,
        })
    }

    /// The record of a target whose script has declared this so far.
    pub fn so_far(alloc: Global, rule: &Rule, declared: &Deps) -> Result<Record, AllocError>
        ensures { IfOk result (λ deps. deps ≡ with_all (search_deps rule.now.missing rule.now.do_file) declared.now) }
    {
        rule.missing.each_once();
        let own = new_of(alloc, rule, declared)?;
        let missing = rule.missing.clone()?;
        let do_file = Some(rule.do_file.clone()?);
        Ok(Record {
            missing,
            do_file,
            own,
        })
    }

    /// The record with these entries, which are taken over. It stores each of them, even those of a search.
    pub fn of_entries(entries: Deps) -> Record
        ensures { result ≡ entries }
    {
        entries.each_once();
        Record {
            missing: Missing::none(),
            do_file: None,
            own: entries,
        }
    }

    /// The parts of the record.
    pub fn parts(&self) -> Parts<'_>
        ensures { self.now ≡ entries_of result.missing.now (option_copied result.do_file) result.own.now }
    {
        Parts {
            missing: &self.missing,
            do_file: self.do_file.as_ref(),
            own: self.own.as_slice(),
        }
    }

    /// No entry occurs twice.
    pub fn each_once(&self)
        ensures { AreOnce self.now }
    {
        // Reading a field brings the invariant into the proof. Nothing runs.
        let _ = &self.own;
    }

    /// Its entries. Each call spells them again.
    pub fn entries(&self, alloc: Global) -> Result<Vec<Dep>, AllocError>
        ensures { IfOk result (λ list. list.items ≡ self.now) }
    {
        let mut list = created(alloc, &self.missing)?;
        add_change(&mut list, &self.do_file)?;
        add_all(&mut list, self.own.as_slice())?;
        Ok(list)
    }
}

/// The entries of the missing candidates.
fn created(alloc: Global, missing: &Missing) -> Result<Vec<Dep>, AllocError>
    ensures { IfOk result (λ list. list.items ≡ creates missing.now) }
{
    let paths = missing.paths(alloc)?;
    paths
        .into_iter()
        .map(|path| Dep {
            kind: DepKind::Create,
            path,
        })
        .collect(alloc)
}

/// Appends the entry of the .do file, if there is one.
fn add_change(list: &mut Vec<Dep>, do_file: &Option<Path>) -> Result<(), AllocError>
    ensures { OnOk result (list.new.items ≡ list.old.items ++ change_of do_file.now) }
{
    if let Some(path) = do_file {
        let path = path.clone()?;
        list.push(Dep {
            kind: DepKind::Change,
            path,
        })?;
    }
    Ok(())
}

/// Appends copies of entries to a list.
fn add_all(list: &mut Vec<Dep>, own: &[Dep]) -> Result<(), AllocError>
    ensures { OnOk result (list.new.items ≡ list.old.items ++ own.now) }
{
    for dep in own {
        list.push(dep.clone()?)?;
    }
    Ok(())
}

/// Whether the search for a rule has entered this already.
fn is_found(alloc: Global, rule: &Rule, dep: &Dep) -> Result<bool, AllocError>
    ensures { IfOk result (λ found. found ≡
        is_entered (search_entries rule.now.missing (Some rule.now.do_file)) dep.now.kind dep.now.path) }
{
    match dep.kind {
        DepKind::Change => Ok(dep.path == rule.do_file),
        DepKind::Create => rule.missing.contains(alloc, &dep.path),
        DepKind::Always => Ok(false),
    }
}

/// The entries that the search for a rule has not entered already. Usually these are all of them.
fn without_found(alloc: Global, rule: &Rule, declared: Deps) -> Result<Deps, AllocError>
    ensures { IfOk result (λ own. entries_of rule.now.missing (Some rule.now.do_file) own ≡
        with_all (search_entries rule.now.missing (Some rule.now.do_file)) declared) }
{
    declared.each_once();
    for dep in declared.as_slice() {
        if is_found(alloc, rule, dep)? {
            return new_of(alloc, rule, &declared);
        }
    }
    Ok(declared)
}

/// Copies of the entries that the search for a rule has not entered already.
fn new_of(alloc: Global, rule: &Rule, declared: &Deps) -> Result<Deps, AllocError>
    ensures { IfOk result (λ own. entries_of rule.now.missing (Some rule.now.do_file) own ≡
        with_all (search_entries rule.now.missing (Some rule.now.do_file)) declared.now) }
{
    let mut own = Deps::new(alloc);
    for dep in declared.as_slice() {
        add_new(alloc, rule, dep, &mut own)?;
    }
    Ok(own)
}

/// Adds a copy of an entry, unless the search for a rule has entered it already.
fn add_new(alloc: Global, rule: &Rule, dep: &Dep, own: &mut Deps) -> Result<(), AllocError>
    ensures { OnOk result ((rest : List Dep) →
        with_all (search_entries rule.now.missing (Some rule.now.do_file) ++ own.old) (dep.now ∷ rest)
        ≡ with_all (search_entries rule.now.missing (Some rule.now.do_file) ++ own.new) rest) }
{
    if is_found(alloc, rule, dep)? {
        return Ok(());
    }
    own.insert(dep.clone()?)?;
    Ok(())
}

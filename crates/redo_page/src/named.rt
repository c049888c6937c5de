//! Paths by number: the rows' first, and then each other path that a record names.

ghost use Rattle.std.specs.Prelude.{◌≡◌, IfOk, IsTrue, List, OnOk, Some, false, length, slice_get, ℕ, ◌↔◌};
ghost use Rattle.std.specs.Arc.{arc_value};
ghost use Rattle.redo_names.specs.Paths.{IsAmong};
ghost use Rattle.redo_record.specs.Progress.{changes};
ghost use Rattle.redo_report.specs.declared.report.Row.{Row as RowOf};
ghost use Rattle.redo_page.specs.Data.{AreNumbered, HasNumbers, missing_after};
ghost use Rattle.redo_page.specs.inside.Links.{known_by};
ghost use Rattle.redo_page.specs.inside.Named.{IsEntered, Keeps, number_by, numbers_by};

use crate::links::Links;
use redo_names::PathMap;
use redo_path::Path;
use redo_record::{Dep, DepKind};
use redo_report::Row;
use std::alloc::{AllocError, Global};

/// The numbers of paths.
#[derive(Drop)]
pub(crate) struct Named<'a> {
    links: &'a Links<'a>,
    /// How many rows there are.
    count: usize,
    /// The numbers of the paths that have no row.
    others: PathMap<usize>,
}

impl<'a> Named<'a> {
    /// The numbers of all paths that the data tells of these rows' records.
    pub(crate) fn of(
        alloc: Global,
        links: &'a Links<'a>,
        rows: &[Row],
    ) -> Result<Named<'a>, AllocError>
        ensures links { IfOk result (λ named. named.links.now ≡ links.now) }
        ensures numbered { IfOk result (λ named. AreNumbered (length rows.now) named.others) }
        ensures named { IfOk result (λ named. (n : ℕ) (row : RowOf) → slice_get rows.now n ≡ Some row →
            HasNumbers (known_by links.now) (numbers_by named) (arc_value row.deps)) }
    {
        let mut named = Named {
            links,
            count: rows.len(),
            others: PathMap::new(alloc),
        };
        for row in rows {
            named.enter_row(alloc, row)?;
        }
        Ok(named)
    }

    /// The number of a path; 0 if it has none.
    pub(crate) fn number(&self, path: &Path) -> usize
        ensures { result ≡ number_by self.now path.now }
    {
        match self.links.row_of(path) {
            Some(number) => number,
            None => self.others.get(path).copied().unwrap_or(0),
        }
    }

    /// What is known of the rows.
    pub(crate) fn links(&self) -> &Links<'a>
        ensures { result.now ≡ self.now.links.now }
    {
        self.links
    }

    /// The paths that have no row, in the order of their numbers.
    pub(crate) fn others(&self) -> &PathMap<usize>
        ensures { result.now ≡ self.now.others }
    {
        &self.others
    }

    /// Whether a path has a number.
    fn has(&self, path: &Path) -> bool
        ensures { IsTrue result ↔ IsEntered self.now path.now }
    {
        self.links.row_of(path).is_some() || self.others.get(path).is_some()
    }

    /// Gives a path a number, unless it has one.
    fn enter(&mut self, path: &Path) -> Result<(), AllocError>
        ensures kept { OnOk result (Keeps self.old self.new) }
        ensures entered { OnOk result (IsEntered self.new path.now) }
        ensures numbered { OnOk result (AreNumbered self.old.count self.old.others →
            AreNumbered self.new.count self.new.others) }
    {
        if !self.has(path) {
            // So many paths fit into no memory.
            let number = self.count.checked_add(self.others.len()).ok_or(AllocError)?;
            self.others.insert(path.clone()?, number)?;
        }
        Ok(())
    }

    /// Gives numbers to the paths that the data tells of a row's record.
    fn enter_row(&mut self, alloc: Global, row: &Row) -> Result<(), AllocError>
        ensures kept { OnOk result (Keeps self.old self.new) }
        ensures named { OnOk result (HasNumbers (known_by self.new.links.now) (numbers_by self.new)
            (arc_value row.now.deps)) }
        ensures numbered { OnOk result (AreNumbered self.old.count self.old.others →
            AreNumbered self.new.count self.new.others) }
    {
        let entries = row.deps.entries(alloc)?;
        self.enter_changes(&entries)?;
        self.enter_missing(&entries)?;
        Ok(())
    }

    /// Gives numbers to the paths that have to stay as they are.
    fn enter_changes(&mut self, entries: &[Dep]) -> Result<(), AllocError>
        ensures kept { OnOk result (Keeps self.old self.new) }
        ensures entered { OnOk result ((path : List ℕ) → IsAmong (changes entries.now) path → IsEntered self.new path) }
        ensures numbered { OnOk result (AreNumbered self.old.count self.old.others →
            AreNumbered self.new.count self.new.others) }
    {
        for entry in entries {
            match entry.kind {
                DepKind::Change => self.enter(&entry.path)?,
                DepKind::Create | DepKind::Always => {}
            }
        }
        Ok(())
    }

    /// Gives numbers to the paths that have to stay missing, as the script declared it: those behind the rule.
    fn enter_missing(&mut self, entries: &[Dep]) -> Result<(), AllocError>
        ensures kept { OnOk result (Keeps self.old self.new) }
        ensures entered { OnOk result ((path : List ℕ) → IsAmong (missing_after false entries.now) path →
            IsEntered self.new path) }
        ensures numbered { OnOk result (AreNumbered self.old.count self.old.others →
            AreNumbered self.new.count self.new.others) }
    {
        let mut ruled = false;
        for entry in entries {
            match entry.kind {
                DepKind::Change => ruled = true,
                DepKind::Create => {
                    if ruled {
                        self.enter(&entry.path)?;
                    }
                }
                DepKind::Always => {}
            }
        }
        Ok(())
    }
}

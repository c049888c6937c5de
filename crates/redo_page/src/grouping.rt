//! Which rows are alike, and how high each stands.

ghost use Rattle.std.specs.Prelude.{◌≡◌, ◌++◌, ◌∷◌, [], IfOk, List, OnOk, true, filter_map, option_copied, ℕ};
ghost use Rattle.redo_alike.specs.declared.graph.Node.{Node as NodeOf};
ghost use Rattle.redo_record.specs.Progress.{changes};
ghost use Rattle.redo_record.specs.declared.outcome.Outcome.TheVariants.{Cyclic};
ghost use Rattle.redo_page.specs.Grouping.{IsNode, at_or_zero};
ghost use Rattle.redo_page.specs.Pages.{row_of};
ghost use Rattle.redo_page.specs.inside.Grouping.{AreSeen, Grows, GrowsTo, IsGroupingOf, IsKindOf, IsNumberOf, one_more};
ghost use Rattle.redo_page.specs.inside.Links.{known_by};

use crate::links::Links;
use crate::summary::row_word;
use redo_alike::{Grouped, Kind, Node, group};
use redo_names::PathSet;
use redo_path::Path;
use redo_record::{Dep, DepKind, Outcome};
use redo_report::Row;
use redo_told::rule_of;
use std::alloc::{AllocError, Global};

/// At most this many requested targets are in groups of their own.
const MOST_REQUESTED: usize = 12;

/// What is known of the rows by number.
#[derive(Drop)]
pub(crate) struct Grouping {
    grouped: Grouped,
}

/// What was seen of rows so far.
#[derive(Drop)]
pub(crate) struct Seen {
    rules: PathSet,
    directories: PathSet,
    nodes: Vec<Node>,
}

/// The number of a path, from 1 on; 0 where there is none.
fn number_in(paths: &mut PathSet, path: Option<&Path>) -> Result<usize, AllocError>
    ensures grown { OnOk result (Grows paths.old paths.new) }
    ensures number { IfOk result (IsNumberOf paths.new (option_copied path.entry)) }
{
    let Some(path) = path else {
        return Ok(0);
    };
    let (number, _) = paths.insert(path.clone()?)?;
    // So many paths fit into no memory.
    number.checked_add(1).ok_or(AllocError)
}

/// Adds a number, if there is one.
pub(crate) fn push_some(numbers: &mut Vec<usize>, number: Option<usize>) -> Result<(), AllocError>
    ensures { OnOk result (numbers.new.items ≡ numbers.old.items ++ one_more number) }
{
    if let Some(number) = number {
        numbers.push(number)?;
    }
    Ok(())
}

/// The numbers of the rows that a record needs.
fn needs_of(alloc: Global, links: &Links<'_>, entries: &[Dep]) -> Result<Vec<usize>, AllocError>
    ensures { IfOk result (λ needs. needs.items ≡ filter_map (known_by links.now).row_of (changes entries.now)) }
{
    let mut needs = Vec::new(alloc);
    for entry in entries {
        match entry.kind {
            DepKind::Change => push_some(&mut needs, links.row_of(&entry.path))?,
            DepKind::Create | DepKind::Always => {}
        }
    }
    Ok(needs)
}

/// Whether a row is with no other: one that is cyclic, or one of few that were requested.
fn is_alone(asked: &PathSet, row: &Row) -> bool
    ensures { row.now.outcome ≡ Cyclic → result ≡ true }
{
    match row.outcome {
        Outcome::Cyclic => true,
        Outcome::Source | Outcome::Built(_) | Outcome::Failed(_) => {
            asked.len() <= MOST_REQUESTED && asked.contains(&row.path)
        }
    }
}

impl Seen {
    /// The kind of a row.
    fn kind(&mut self, alloc: Global, links: &Links<'_>, row: &Row) -> Result<Kind, AllocError>
        ensures grown { OnOk result (GrowsTo self.old self.new) }
        ensures nodes { OnOk result (self.new.nodes.items ≡ self.old.nodes.items) }
        ensures kind { IfOk result (IsKindOf self.new (known_by links.now) row.now) }
    {
        let rule = number_in(&mut self.rules, rule_of(&row.deps))?;
        let parent = row.path.parent(alloc)?;
        let directory = number_in(&mut self.directories, parent.as_ref())?;
        let outcome = row_word(links, row).number() as usize;
        Ok(Kind {
            rule,
            directory,
            outcome,
        })
    }

    /// Adds a row as a node.
    fn add(
        &mut self,
        alloc: Global,
        links: &Links<'_>,
        asked: &PathSet,
        row: &Row,
    ) -> Result<(), AllocError>
        ensures grown { OnOk result (GrowsTo self.old self.new) }
        ensures added { OnOk result ((node : NodeOf) × (self.new.nodes.items ≡ self.old.nodes.items ++ node ∷ []) ×
            IsNode (known_by links.now) row.now node × IsKindOf self.new (known_by links.now) row.now node.kind) }
    {
        let kind = self.kind(alloc, links, row)?;
        let alone = is_alone(asked, row);
        let needs = needs_of(alloc, links, &row.deps.entries(alloc)?)?;
        self.nodes.push(Node { kind, alone, needs })?;
        Ok(())
    }
}

/// The rows as nodes.
fn see(alloc: Global, links: &Links<'_>, request: &[Path], rows: &[Row]) -> Result<Seen, AllocError>
    ensures { IfOk result (AreSeen (known_by links.now) rows.now) }
{
    let asked = PathSet::of_paths(alloc, request)?;
    let mut seen = Seen {
        rules: PathSet::new(alloc),
        directories: PathSet::new(alloc),
        nodes: Vec::with_capacity(alloc, rows.len())?,
    };
    for row in rows {
        seen.add(alloc, links, &asked, row)?;
    }
    Ok(seen)
}

impl Grouping {
    /// The heights and groups of rows.
    pub(crate) fn of(
        alloc: Global,
        links: &Links<'_>,
        request: &[Path],
        rows: &[Row],
    ) -> Result<Grouping, AllocError>
        requires links { (p : List ℕ) → (known_by links.now).row_of p ≡ row_of rows.now p }
        ensures { IfOk result (IsGroupingOf (known_by links.now) rows.now) }
    {
        let seen = see(alloc, links, request, rows)?;
        let grouped = group(alloc, &seen.nodes)?;
        Ok(Grouping { grouped })
    }

    /// How high the row with this number stands.
    pub(crate) fn height(&self, number: usize) -> usize
        ensures { result ≡ at_or_zero self.now.grouped.heights.items number }
    {
        self.grouped.heights.get(number).copied().unwrap_or(0)
    }

    /// The number of the group that the row with this number is in.
    pub(crate) fn group(&self, number: usize) -> usize
        ensures { result ≡ at_or_zero self.now.grouped.groups.items number }
    {
        self.grouped.groups.get(number).copied().unwrap_or(0)
    }
}

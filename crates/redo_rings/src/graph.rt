//! Which cyclic targets ask for which, by numbers.

ghost use Rattle.std.specs.Prelude.{◌≡◌, ◌<◌, ◌++◌, ◌&&◌, ◌||◌, ◌∷◌, [], ℕ, List, true, false, Some, None, IfOk, IfSome, OnOk, bytes_eq, filter, length, map, slice_get};
ghost use Rattle.std.specs.Arc.{arc_value};
ghost use Rattle.redo_names.specs.Paths.{is_among};
ghost use Rattle.redo_record.specs.Progress.{changes};
ghost use Rattle.redo_rings.specs.Rings.{is_cyclic as has_cyclic_outcome};
ghost use Rattle.redo_rings.specs.inside.Walks.{IsIn, next_at};
ghost use Rattle.redo_rings.specs.inside.Graph.{AreAsks, IsNumbering, asks_at, cyclic_among};

use redo_names::PathSet;
use redo_path::Path;
use redo_record::{Dep, DepKind, Outcome};
use redo_report::Row;
use std::alloc::{AllocError, Global};

/// The numbers of the cyclic targets that one asks for, in the order of its record.
#[derive(Drop)]
pub(crate) struct Asks {
    pub(crate) numbers: Vec<usize>,
}

fn is_cyclic(row: &Row) -> bool
    ensures { result ≡ has_cyclic_outcome row.now.outcome }
{
    matches!(row.outcome, Outcome::Cyclic)
}

/// Adds a row's target, if it is cyclic.
fn add_cyclic(names: &mut PathSet, row: &Row) -> Result<(), AllocError>
    ensures { OnOk result ((p : List ℕ) → is_among names.new p ≡
        (is_among names.old p || (has_cyclic_outcome row.now.outcome && bytes_eq row.now.path p))) }
{
    if is_cyclic(row) {
        names.insert(row.path.clone()?)?;
    }
    Ok(())
}

/// The cyclic targets of rows.
pub(crate) fn cyclic_targets(alloc: Global, rows: &[Row]) -> Result<PathSet, AllocError>
    ensures { IfOk result (λ names. (p : List ℕ) → is_among names p ≡ is_among (map (λ row. row.path) (cyclic_among rows.now)) p) }
{
    let mut names = PathSet::new(alloc);
    for row in rows {
        add_cyclic(&mut names, row)?;
    }
    Ok(names)
}

/// Adds the number of an entry's path, if the entry is `change` and the path has a number.
fn push_asked(names: &PathSet, dep: &Dep, numbers: &mut Vec<usize>) -> Result<(), AllocError>
    ensures { OnOk result (map (slice_get names.now) numbers.new.items ≡
        map (slice_get names.now) numbers.old.items ++ map Some (filter (is_among names.now) (changes (dep.now ∷ [])))) }
{
    match dep.kind {
        DepKind::Change => match names.number_of(&dep.path) {
            Some(number) => Ok(numbers.push(number)?),
            None => Ok(()),
        },
        DepKind::Create | DepKind::Always => Ok(()),
    }
}

/// The numbers of the paths that a row's record has in change entries.
fn asked(alloc: Global, names: &PathSet, row: &Row) -> Result<Asks, AllocError>
    ensures { IfOk result (λ asks. map (slice_get names.now) asks.numbers.items ≡
        map Some (filter (is_among names.now) (changes (arc_value row.now.deps)))) }
{
    let mut numbers = Vec::new(alloc);
    for dep in &row.deps.entries(alloc)? {
        push_asked(names, dep, &mut numbers)?;
    }
    Ok(Asks { numbers })
}

/// Notes what a row's target asks for, if it is cyclic.
fn note_asks(
    alloc: Global,
    names: &PathSet,
    table: &mut [Asks],
    row: &Row,
) -> Result<(), AllocError>
    requires { length table.old ≡ length names.now }
    ensures here { OnOk result ((k : ℕ) → has_cyclic_outcome row.now.outcome ≡ true → slice_get names.now k ≡ Some row.now.path →
        IsNumbering names.now (asks_at table.new k) row.now) }
    ensures others { OnOk result ((k : ℕ) → (slice_get names.now k ≡ Some row.now.path → ⊥) → asks_at table.new k ≡ asks_at table.old k) }
    ensures source { OnOk result (has_cyclic_outcome row.now.outcome ≡ false → table.new ≡ table.old) }
{
    if is_cyclic(row) {
        if let Some(number) = names.number_of(&row.path) {
            names.each_once();
            table[number] = asked(alloc, names, row)?;
        }
    }
    Ok(())
}

/// A table of nothing that is asked for.
fn no_asks(alloc: Global, count: usize) -> Result<Vec<Asks>, AllocError>
    ensures { IfOk result (λ table. length table.items ≡ count) }
{
    let mut table = Vec::with_capacity(alloc, count)?;
    for _number in 0..count {
        let numbers = Vec::new(alloc);
        table.push(Asks { numbers })?;
    }
    Ok(table)
}

/// What each of the cyclic targets of rows asks for.
pub(crate) fn all_asks(
    alloc: Global,
    names: &PathSet,
    rows: &[Row],
) -> Result<Vec<Asks>, AllocError>
    requires { (p : List ℕ) → is_among names.now p ≡ is_among (map (λ row. row.path) (cyclic_among rows.now)) p }
    ensures size { IfOk result (λ table. length table.items ≡ length names.now) }
    ensures asks { IfOk result (λ table. AreAsks rows.now names.now table.items) }
{
    let mut table = no_asks(alloc, names.len())?;
    for row in rows {
        note_asks(alloc, names, &mut table, row)?;
    }
    Ok(table)
}

/// The number at a place, or the first if there is none at it.
fn chosen(asks: &Asks, place: usize) -> Option<usize>
    ensures some { IfSome result (λ number. IsIn asks.now.numbers.items number) }
    ensures none { result ≡ None → asks.now.numbers.items ≡ [] }
{
    let numbers = &asks.numbers;
    if numbers.is_empty() {
        return None;
    }
    if place < numbers.len() {
        Some(numbers[place])
    } else {
        Some(numbers[0])
    }
}

/// For each number one of those that it asks for: the one at the place that is given for it.
pub(crate) fn next_of_each(
    alloc: Global,
    table: &[Asks],
    places: &[usize],
) -> Result<Vec<Option<usize>>, AllocError>
    ensures size { IfOk result (λ next. length next.items ≡ length table.now) }
    ensures some { IfOk result (λ next. (k : ℕ) (n : ℕ) → next_at next.items k ≡ Some n → IsIn (asks_at table.now k) n) }
    ensures none { IfOk result (λ next. (k : ℕ) → k < length next.items → next_at next.items k ≡ None → asks_at table.now k ≡ []) }
{
    let mut next = Vec::with_capacity(alloc, table.len())?;
    for number in 0..table.len() {
        let place = match places.get(number) {
            Some(place) => *place,
            None => 0,
        };
        next.push(chosen(&table[number], place))?;
    }
    Ok(next)
}

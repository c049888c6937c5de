//! The rings of a report.

ghost use Rattle.std.specs.Prelude.{◌≡◌, ◌-◌, ◌<◌, ℕ, List, Option, Some, All, IfOk, length, map, slice_get, slice_index};
ghost use Rattle.std.specs.List.{count_by};
ghost use Rattle.redo_names.specs.Paths.{AreDistinct, is_among};
ghost use Rattle.redo_rings.specs.Rings.{ArePlaces, IsCounted, IsRing, on_rings};
ghost use Rattle.redo_rings.specs.inside.Found.{AreRingsOf, IsRingOf, is_at};
ghost use Rattle.redo_rings.specs.inside.Graph.{IsNext, cyclic_among};
ghost use Rattle.redo_rings.specs.inside.Walks.{IsIn, circle_at, place_at};
ghost use Rattle.redo_rings.specs.declared.walks.Circle.{Circle as CircleView};

use crate::choice::picks;
use crate::graph::{all_asks, cyclic_targets, next_of_each};
use crate::ring::Ring;
use crate::walks::{Circle, Walks, all_walks};
use redo_names::PathSet;
use redo_path::Path;
use redo_report::{Report, Row};
use std::alloc::{AllocError, Global};

/// The paths with these numbers.
fn named(alloc: Global, names: &PathSet, numbers: &[usize]) -> Result<Vec<Path>, AllocError>
    requires { (n : ℕ) → IsIn numbers.now n → n < length names.now }
    ensures { IfOk result (λ paths. map (slice_get names.now) numbers.now ≡ map Some paths.items) }
{
    let mut paths = Vec::with_capacity(alloc, numbers.len())?;
    for number in numbers {
        paths.push(names.at(*number).clone()?)?;
    }
    Ok(paths)
}

/// How many lead to each number.
fn counts(alloc: Global, places: &[Option<usize>]) -> Result<Vec<usize>, AllocError>
    requires { (n m : ℕ) → place_at places.now n ≡ Some m → m < length places.now }
    ensures size { IfOk result (λ counts. length counts.items ≡ length places.now) }
    ensures each { IfOk result (λ counts. (m : ℕ) → slice_index counts.items m ≡ count_by (is_at m) places.now) }
{
    let mut counts = vec![in alloc; 0; places.len()]?;
    for place in places {
        if let Some(first) = place {
            counts[*first] += 1;
        }
    }
    Ok(counts)
}

/// The ring of a circle, with the others of these many that lead to it.
fn ring_of(
    alloc: Global,
    names: &PathSet,
    circle: &Circle,
    count: usize,
) -> Result<Ring, AllocError>
    requires { (n : ℕ) → IsIn circle.now.members.items n → n < length names.now }
    ensures { IfOk result (λ ring. IsRingOf names.now count circle.now ring) }
{
    let members = named(alloc, names, &circle.members)?;
    let waiting = count.saturating_sub(circle.members.len());
    Ok(Ring { members, waiting })
}

/// The rings of all circles.
fn rings_of(alloc: Global, names: &PathSet, walks: &Walks) -> Result<Vec<Ring>, AllocError>
    requires size { length walks.now.circles.items ≡ length walks.now.places.items }
    requires within { (k n : ℕ) (c : CircleView) → circle_at walks.now.circles.items k ≡ Some c → IsIn c.members.items n → n < length names.now }
    requires first { (k : ℕ) (c : CircleView) → circle_at walks.now.circles.items k ≡ Some c → slice_index c.members.items 0 ≡ k }
    requires places { (n m : ℕ) → place_at walks.now.places.items n ≡ Some m → m < length walks.now.places.items }
    ensures { IfOk result (λ rings. AreRingsOf names.now walks.now.places.items walks.now.circles.items rings.items) }
{
    let counts = counts(alloc, &walks.places)?;
    let mut rings = Vec::new(alloc);
    for first in 0..walks.circles.len() {
        if let Some(circle) = &walks.circles[first] {
            rings.push(ring_of(alloc, names, circle, counts[first])?)?;
        }
    }
    Ok(rings)
}

/// For each cyclic target of rows one that it asks for, if there is any.
fn next_of_rows(
    alloc: Global,
    names: &PathSet,
    rows: &[Row],
) -> Result<Vec<Option<usize>>, AllocError>
    requires { (p : List ℕ) → is_among names.now p ≡ is_among (map (λ row. row.path) (cyclic_among rows.now)) p }
    ensures { IfOk result (λ next. IsNext rows.now names.now next.items) }
{
    let table = all_asks(alloc, names, rows)?;
    let places = picks(alloc, &table)?;
    let next = next_of_each(alloc, &table, &places)?;
    Ok(next)
}

/// The rings of a report's cyclic targets, in the order of their first members.
pub fn rings(alloc: Global, report: &Report) -> Result<Vec<Ring>, AllocError>
    ensures rings { IfOk result (λ rings. All (λ ring. (first : List ℕ) × IsRing report.now first ring.members.items) rings.items) }
    ensures once { IfOk result (λ rings. AreDistinct (on_rings rings.items)) }
    ensures places { IfOk result (λ rings. (places : List (List ℕ × Option (List ℕ)))
        × ArePlaces report.now rings.items places × All (IsCounted report.now places) rings.items) }
{
    let names = cyclic_targets(alloc, &report.rows)?;
    let next = next_of_rows(alloc, &names, &report.rows)?;
    let walks = all_walks(alloc, &next)?;
    names.each_once();
    let rings = rings_of(alloc, &names, &walks)?;
    Ok(rings)
}

//! Walks over numbers, each of which has at most one number that a walk goes on to.

ghost use Rattle.std.specs.Prelude.{◌≡◌, ◌≢◌, ◌<◌, ◌≤◌, ℕ, List, true, false, Some, None, IfOk, OnOk, MatchOption, length, slice_get, slice_index};
ghost use Rattle.redo_rings.specs.inside.Walks.{IsEnd, IsGraph, IsIn, IsKnown, IsClosed, IsTurned, IsWay, circle_at, next_at, place_at, seen_at};

use std::alloc::{AllocError, Global};

/// The numbers of a circle in their order, from the least on.
#[derive(Drop)]
pub(crate) struct Circle {
    pub(crate) members: Vec<usize>,
}

/// The numbers of a walk, and the one that it came to then: it was seen before, or is among them.
#[derive(Drop)]
struct Way {
    numbers: Vec<usize>,
    end: Option<usize>,
}

/// Where each number leads to, and the circles, each at its first member.
#[derive(Drop)]
pub(crate) struct Walks {
    seen: Vec<bool>,
    /// The first member of the circle to which a number leads, if its walk doesn't end.
    pub(crate) places: Vec<Option<usize>>,
    pub(crate) circles: Vec<Option<Circle>>,
}

/// Walks from a number to the first that was seen.
fn walk(
    alloc: Global,
    next: &[Option<usize>],
    seen: &mut [bool],
    start: usize,
) -> Result<Way, AllocError>
    requires graph { IsGraph next.now }
    requires size { length seen.old ≡ length next.now }
    requires within { start < length next.now }
    ensures way { IfOk result (λ way. IsWay next.now seen.old seen.new (Some start) way.numbers.items way.end) }
    ensures began { OnOk result (seen_at seen.new start ≡ true) }
    ensures stops { IfOk result (λ way. (n : ℕ) → way.end ≡ Some n → seen_at seen.new n ≡ true) }
{
    let mut numbers = Vec::new(alloc);
    let mut end = Some(start);
    while let Some(here) = end {
        if seen[here] {
            break;
        }
        numbers.push(here)?;
        seen[here] = true;
        end = next[here];
    }
    Ok(Way { numbers, end })
}

/// The place of a number among these.
fn place_in(numbers: &[usize], number: usize) -> Option<usize>
    ensures { MatchOption result ((k : ℕ) → k < length numbers.now → slice_index numbers.now k ≢ number) (λ i. slice_get numbers.now i ≡ Some number) }
{
    for place in 0..numbers.len() {
        if numbers[place] == number {
            return Some(place);
        }
    }
    None
}

/// The place of the least of some numbers.
fn least_place(numbers: &[usize]) -> usize
    requires { 0 < length numbers.now }
    ensures within { result < length numbers.now }
    ensures least { (k : ℕ) → k < length numbers.now → slice_index numbers.now result ≤ slice_index numbers.now k }
{
    let mut best = 0;
    for place in 1..numbers.len() {
        if numbers[place] < numbers[best] {
            best = place;
        }
    }
    best
}

/// These numbers, from the least on and then from the front.
fn turned(alloc: Global, numbers: &[usize]) -> Result<Circle, AllocError>
    requires { 0 < length numbers.now }
    ensures { IfOk result (λ circle. IsTurned numbers.now circle.members.items) }
{
    let least = least_place(numbers);
    let mut members = Vec::with_capacity(alloc, numbers.len())?;
    members.extend_from_slice(&numbers[least..])?;
    members.extend_from_slice(&numbers[..least])?;
    Ok(Circle { members })
}

/// Notes the circle of these numbers at its first member, which is returned.
fn close(
    alloc: Global,
    circles: &mut [Option<Circle>],
    numbers: &[usize],
) -> Result<usize, AllocError>
    requires some { 0 < length numbers.now }
    requires within { (n : ℕ) → IsIn numbers.now n → n < length circles.old }
    ensures { IfOk result (λ first. IsClosed numbers.now circles.old circles.new first) }
{
    let circle = turned(alloc, numbers)?;
    let first = circle.members[0];
    circles[first] = Some(circle);
    Ok(first)
}

/// Where the numbers of a walk lead to. A new circle is noted.
fn place_of(
    alloc: Global,
    way: &Way,
    places: &[Option<usize>],
    circles: &mut [Option<Circle>],
) -> Result<Option<usize>, AllocError>
    requires numbers { (n : ℕ) → IsIn way.now.numbers.items n → n < length circles.old }
    requires end { (n : ℕ) → way.now.end ≡ Some n → n < length places.now }
    ensures { IfOk result (λ place. IsEnd way.now.numbers.items way.now.end places.now circles.old place circles.new) }
{
    let Some(end) = way.end else {
        return Ok(None);
    };
    match place_in(&way.numbers, end) {
        Some(from) => Ok(Some(close(alloc, circles, &way.numbers[from..])?)),
        None => Ok(places[end]),
    }
}

/// Notes the place of some numbers.
fn settle(places: &mut [Option<usize>], numbers: &[usize], place: Option<usize>)
    requires { (n : ℕ) → IsIn numbers.now n → n < length places.old }
    ensures here { (n : ℕ) → IsIn numbers.now n → place_at places.new n ≡ place }
    ensures others { (n : ℕ) → (IsIn numbers.now n → ⊥) → place_at places.new n ≡ place_at places.old n }
{
    for number in numbers {
        places[*number] = place;
    }
}

/// Follows the walk from a number that wasn't seen.
fn follow(
    alloc: Global,
    next: &[Option<usize>],
    walks: &mut Walks,
    start: usize,
) -> Result<(), AllocError>
    requires graph { IsGraph next.now }
    requires within { start < length next.now }
    requires known { IsKnown next.now walks.old.seen.items walks.old.places.items walks.old.circles.items }
    ensures known { OnOk result (IsKnown next.now walks.new.seen.items walks.new.places.items walks.new.circles.items) }
    ensures more { OnOk result ((n : ℕ) → seen_at walks.old.seen.items n ≡ true → seen_at walks.new.seen.items n ≡ true) }
    ensures here { OnOk result (seen_at walks.new.seen.items start ≡ true) }
{
    let way = walk(alloc, next, &mut walks.seen, start)?;
    let place = place_of(alloc, &way, &walks.places, &mut walks.circles)?;
    settle(&mut walks.places, &way.numbers, place);
    Ok(())
}

/// No number is seen.
fn begun(alloc: Global, count: usize) -> Result<Walks, AllocError>
    ensures seen { IfOk result (λ walks. (length walks.seen.items ≡ count) × ((n : ℕ) → seen_at walks.seen.items n ≡ false)) }
    ensures places { IfOk result (λ walks. length walks.places.items ≡ count) }
    ensures circles { IfOk result (λ walks. (length walks.circles.items ≡ count)
        × ((n : ℕ) → circle_at walks.circles.items n ≡ None)) }
{
    let seen = vec![in alloc; false; count]?;
    let places = vec![in alloc; None; count]?;
    let mut circles = Vec::with_capacity(alloc, count)?;
    for _number in 0..count {
        circles.push(None)?;
    }
    Ok(Walks {
        seen,
        places,
        circles,
    })
}

/// Where each number leads to, and each circle.
pub(crate) fn all_walks(alloc: Global, next: &[Option<usize>]) -> Result<Walks, AllocError>
    requires { IsGraph next.now }
    ensures known { IfOk result (λ walks. IsKnown next.now walks.seen.items walks.places.items walks.circles.items) }
    ensures all { IfOk result (λ walks. (n : ℕ) → n < length next.now → seen_at walks.seen.items n ≡ true) }
{
    let mut walks = begun(alloc, next.len())?;
    for start in 0..next.len() {
        follow(alloc, next, &mut walks, start)?;
    }
    Ok(walks)
}

//! The index from a path's text to its number. It is a hash table, here called a row of places. Next to a number a
//! place holds a mark, a few bits of the hash, so that hardly any path is read but the one looked for. Up to eight
//! paths need no row: each is compared.

ghost use Rattle.std.specs.Prelude.{◌≡◌, ◌+◌, ◌-◌, ◌<◌, ◌≤◌, ◌^◌, ◌++◌, ◌∷◌, ◌↔◌, [], Some, None, IfOk, IfNone, IfSome};
ghost use Rattle.std.specs.Prelude.{MatchOption, OnErr, OnOk, IsTrue, bit_and, length, slice_get, slice_index};
ghost use Rattle.std.specs.Int.{IsPowerOfTwo};
ghost use Rattle.redo_names.specs.inside.Index.{hash_of as hash_of_text, number_in as number_at, mark_in as mark_at};
ghost use Rattle.redo_names.specs.inside.Index.{mark_of as mark_of_hash, room_of as room_of_row, kept_over};
ghost use Rattle.redo_names.specs.inside.Index.{AllTaken, Holds, IsAbsent, IsIndexOf, IsNowhere, IsRowOf, IsSpot};
ghost use Rattle.redo_names.specs.inside.Index.{KeepsOthers};

use redo_path::Path;
use std::alloc::{AllocError, Global};
use std::collections::BTreeMap;
use std::hash::{FoldHasher, Hasher};

/// The most places of the row that are tried for a path.
const TRIES: usize = 8;

/// Up to this many paths need no row: a look-up compares each of them, and so no more texts than it may in a row.
const FEW: usize = 8;

/// How many values a place has for the number, beside each of the 32 marks.
const NUMBERS: u32 = 1 << 27;

/// The numbers of some paths. The paths are stored elsewhere and passed to each call.
#[derive(Drop)]
pub(crate) struct Index {
    /// The row. A free place is 0. Any other has the path's number plus one in its low 27 bits and the path's mark in
    /// the top 5. Up to eight paths have no row, and then there are no places.
    pub(crate) places: Vec<u32>,
    /// The numbers of the paths that found no free place, by the paths' texts.
    pub(crate) overflow: BTreeMap<Vec<u8>, u32>,
}

/// Where the search for a path ends.
#[derive(Clone, Copy)]
pub(crate) enum Spot {
    /// At the path's number.
    Found(usize),
    /// The path isn't one of the few that need no row. It belongs after the last of them.
    Few,
    /// The path isn't there. It belongs in the free place `at`, and `hash` is the hash of its text.
    Free { at: usize, hash: u64 },
    /// The path isn't there. It belongs in the ordered map.
    Over,
}

/// The hash of a path's text.
fn hash_of(text: &[u8]) -> u64
    ensures { result ≡ hash_of_text text.now }
{
    let mut hasher = FoldHasher::default();
    hasher.write(text);
    hasher.finish()
}

/// How many paths a row of `places` places has room for: about half as many, so that the rest stays free, and at least
/// the eight that need no row.
fn room_of(places: usize) -> usize
    ensures { result ≡ room_of_row places }
{
    (places / 2).saturating_sub(TRIES).max(FEW)
}

/// How many places a row needs for `paths` paths; `None` on overflow. It is a power of two and seven more: a hash is
/// masked to the bits below that power, and seven places follow the last that it can give.
fn row_for(paths: usize) -> Option<usize>
    ensures form { IfSome result (λ places. IsPowerOfTwo (places - 7)) }
    ensures row { IfSome result (λ places. 8 ≤ places) }
    ensures room { IfSome result (λ places. paths ≤ room_of_row places) }
{
    let least = paths.checked_add(TRIES)?.checked_mul(2)?;
    let told = (least - (TRIES - 1)).checked_next_power_of_two()?;
    told.checked_add(TRIES - 1)
}

/// The first place to try for a text with this hash, in a row of `places` places.
fn start_of(hash: u64, places: usize) -> usize
    ensures start { result ≡ bit_and hash (places - 8) }
    ensures within { result ≤ places - 8 }
{
    hash as usize & places.saturating_sub(TRIES)
}

/// The mark of a path with this hash: the top 5 bits, since the low ones choose the first place.
fn mark_of(hash: u64) -> u32
    ensures mark { result ≡ mark_of_hash hash }
    ensures small { result < 2 ^ 5 }
{
    (hash >> 59) as u32
}

/// The value of a place that holds this number, whose path has this hash.
fn place_of(number: u32, hash: u64) -> u32
    requires { number + 1 < 2 ^ 27 }
    ensures used { 0 < result }
    ensures number { number_at result ≡ number }
    ensures mark { mark_at result ≡ mark_of_hash hash }
{
    mark_of(hash) * NUMBERS + number + 1
}

/// The number in a place.
fn number_in(place: u32) -> u32
    requires { 0 < place }
    ensures { result ≡ number_at place }
{
    (place - 1) % NUMBERS
}

/// The mark in a place.
fn mark_in(place: u32) -> u32
    requires { 0 < place }
    ensures { result ≡ mark_at place }
{
    (place - 1) / NUMBERS
}

/// Whether the path with this number has this text.
fn is_at(paths: &[Path], number: usize, text: &[u8]) -> bool
    ensures { IsTrue result ↔ (slice_get paths.now number ≡ Some text.now) }
{
    match paths.get(number) {
        Some(path) => path.has_text(text),
        None => false,
    }
}

/// Whether a place holds the number of the path with this text. The path is read only if the marks agree.
fn holds(place: u32, paths: &[Path], text: &[u8], hash: u64) -> bool
    requires used { 0 < place }
    requires hash { hash ≡ hash_of_text text.now }
    ensures { IsTrue result ↔ Holds paths.now text.now place }
{
    mark_in(place) == mark_of(hash) && is_at(paths, number_in(place) as usize, text)
}

/// The number of the path with this text, found by comparing each path; `None` if there is none.
fn number_among(paths: &[Path], text: &[u8]) -> Option<usize>
    ensures { MatchOption result (IsAbsent paths.now text.now) (λ n. slice_get paths.now n ≡ Some text.now) }
{
    'few: for number in 0..paths.len() {
        if is_at(paths, number, text) {
            return Some(number);
        }
    }
    None
}

/// The number of the path that comes after these. Fails once it doesn't fit into a place beside a mark, after more than
/// a hundred million paths.
fn next_number(paths: &[Path]) -> Result<u32, AllocError>
    ensures number { IfOk result (λ number. number ≡ length paths.now) }
    ensures fits { IfOk result (λ number. number + 1 < 2 ^ 27) }
{
    if paths.len() + 1 >= NUMBERS as usize {
        return Err(AllocError);
    }
    Ok(paths.len() as u32)
}

impl Index {
    /// No numbers. Needs no memory.
    pub(crate) fn new(alloc: Global) -> Index
        ensures { IsIndexOf result [] }
    {
        Index {
            places: Vec::new(alloc),
            overflow: BTreeMap::new(alloc),
        }
    }

    /// No numbers, with room for those of `capacity` paths. Up to eight need no memory.
    pub(crate) fn with_capacity(alloc: Global, capacity: usize) -> Result<Index, AllocError>
        ensures index { IfOk result (λ index. IsIndexOf index []) }
        ensures room { IfOk result (λ index. capacity ≤ room_of_row (length index.places.items)) }
    {
        if capacity <= FEW {
            return Ok(Index::new(alloc));
        }
        Index::of(alloc, &[], row_for(capacity).ok_or(AllocError)?)
    }

    /// The numbers of these paths, in a row of `places` places.
    fn of(alloc: Global, paths: &[Path], places: usize) -> Result<Index, AllocError>
        requires row { 8 ≤ places }
        requires room { length paths.now ≤ room_of_row places }
        ensures index { IfOk result (λ index. IsIndexOf index paths.now) }
        ensures places { IfOk result (λ index. length index.places.items ≡ places) }
    {
        let mut index = Index::new(alloc);
        index.places.resize(places, 0)?;
        'paths: for number in 0..paths.len() {
            index.enter(&paths[..number], paths[number].text())?;
        }
        Ok(index)
    }

    /// The value of a place of the row; 0 past its end.
    fn place(&self, at: usize) -> u32
        ensures { result ≡ slice_index self.now.places.items at }
    {
        match self.places.get(at) {
            Some(place) => *place,
            None => 0,
        }
    }

    /// Where the search for a text ends.
    pub(crate) fn look(&self, paths: &[Path], text: &[u8]) -> Spot
        requires { IsIndexOf self.now paths.now }
        ensures { IsSpot self.now paths.now text.now result }
    {
        if !self.places.is_empty() {
            return self.look_in_row(paths, text);
        }
        match number_among(paths, text) {
            Some(number) => Spot::Found(number),
            None => Spot::Few,
        }
    }

    /// Where the search for a text ends in an index with a row.
    fn look_in_row(&self, paths: &[Path], text: &[u8]) -> Spot
        requires { IsRowOf self.now paths.now }
        ensures { IsSpot self.now paths.now text.now result }
    {
        let hash = hash_of(text);
        let start = start_of(hash, self.places.len());
        'tries: for at in start..start + TRIES {
            let place = self.place(at);
            if place == 0 {
                return Spot::Free { at, hash };
            }
            if holds(place, paths, text, hash) {
                return Spot::Found(number_in(place) as usize);
            }
        }
        self.look_over(paths, text)
    }

    /// Where the search for a text ends if the row has neither its path nor a free place for it.
    fn look_over(&self, paths: &[Path], text: &[u8]) -> Spot
        requires index { IsRowOf self.now paths.now }
        requires taken { AllTaken self.now.places.items text.now }
        requires others { IsNowhere self.now.places.items paths.now text.now }
        ensures { IsSpot self.now paths.now text.now result }
    {
        if let Some(number) = self.overflow.get(text) {
            if is_at(paths, *number as usize, text) {
                return Spot::Found(*number as usize);
            }
        }
        Spot::Over
    }

    /// Makes room for one path after these, in a row of four times as many places if they fill the old one.
    pub(crate) fn make_room(&mut self, paths: &[Path]) -> Result<(), AllocError>
        requires { IsIndexOf self.old paths.now }
        ensures index { IsIndexOf self.new paths.now }
        ensures room { OnOk result (length paths.now < room_of_row (length self.new.places.items)) }
    {
        if paths.len() >= room_of(self.places.len()) {
            let places = row_for(paths.len().saturating_mul(4)).ok_or(AllocError)?;
            *self = Index::of(*self.places.allocator(), paths, places)?;
        }
        Ok(())
    }

    /// Enters a text as that of the next path after these. If one of these has the text, its number is returned and
    /// nothing is entered.
    pub(crate) fn enter(&mut self, paths: &[Path], text: &[u8]) -> Result<Option<usize>, AllocError>
        requires index { IsIndexOf self.old paths.now }
        requires room { length paths.now < room_of_row (length self.old.places.items) }
        ensures number { IfOk result (λ found. IfSome found (λ n. slice_get paths.now n ≡ Some text.now)) }
        ensures new { IfOk result (λ found. IfNone found (IsAbsent paths.now text.now)) }
        ensures entered { OnOk result (IsIndexOf self.new (paths.now ++ text.now ∷ [])) }
        ensures kept { IfOk result (λ found. IfSome found (λ _. self.new ≡ self.old)) }
        ensures err { OnErr result (IsIndexOf self.new paths.now) }
        ensures places { length self.new.places.items ≡ length self.old.places.items }
    {
        match self.look(paths, text) {
            Spot::Found(number) => Ok(Some(number)),
            Spot::Few => Ok(None),
            Spot::Free { at, hash } => {
                self.places[at] = place_of(next_number(paths)?, hash);
                Ok(None)
            }
            Spot::Over => {
                self.put_over(text, next_number(paths)?)?;
                Ok(None)
            }
        }
    }

    /// Puts a number into the ordered map.
    fn put_over(&mut self, text: &[u8], number: u32) -> Result<(), AllocError>
        ensures places { self.new.places.items ≡ self.old.places.items }
        ensures own { OnOk result (kept_over self.new.overflow text.now ≡ Some number) }
        ensures others { OnOk result (KeepsOthers self.old.overflow self.new.overflow text.now) }
        ensures err { OnErr result (self.new.overflow.entries ≡ self.old.overflow.entries) }
    {
        let text = Vec::from_slice(*self.places.allocator(), text)?;
        self.overflow.insert(text, number)?;
        Ok(())
    }
}

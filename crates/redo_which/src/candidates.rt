//! The candidates of a target as an iterator, without a list of them.

ghost use Rattle.std.specs.Prelude.{◌≡◌, ◌<◌, ◌≤◌, ◌^◌, ◌∷◌, ◌++◌, [], IfSome, IsTrue, codes, filter, flat_map, length};
ghost use Rattle.std.specs.Prelude.{◌||◌, nat_eq, if◌then◌else◌};
ghost use Rattle.std.specs.List.{ends_with};
ghost use Rattle.std.specs.Iterator.{YieldsFirst, YieldsFirstBy, item_count};
ghost use Rattle.std.specs.Option.{option_to_list};
ghost use Rattle.std.specs.Str.{bytes_eq};
ghost use Rattle.redo_path.specs.Names.{IsPart, IsPath};
ghost use Rattle.redo_which.specs.Candidates.{candidates_of, is_dot, is_reserved as is_reserved_path, suffixes};
ghost use Rattle.redo_which.specs.inside.First.{IsTarget};
ghost use Rattle.redo_which.specs.inside.Passed.{Passes, places_left};
ghost use Rattle.redo_which.specs.inside.Slots.{IsFirstDot, IsNext, shorter, slots_above, slots_by, slots_left};
ghost use Rattle.redo_which.specs.inside.Distinct.{distinct_places, without_whole};

use crate::candidate_ref::{CandidateRef, fits};
use crate::{BOOK, JOURNAL};
use redo_path::{Path, parent_of_text};
use redo_tree::Tree;
use std::marker::Model;

/// The candidates of a target that are left, in the order of the search. In a contract it is the list of their places.
#[derive(Drop)]
pub struct Candidates<'a> {
    /// The target's name.
    name: &'a [u8],
    next: Next<'a>,
}

/// Where the search continues.
#[derive(Clone, Copy)]
enum Next<'a> {
    /// At the candidate by the whole name, in a directory.
    Whole(&'a [u8]),
    /// At the candidate by the longest suffix of this end of the name, in a directory.
    Suffix(&'a [u8], &'a [u8]),
    /// Nowhere: no candidate is left.
    Nothing,
}

impl<'a> Model for Candidates<'a> {
    ghost use Rattle.std.specs.Prelude.{List};
    ghost use Rattle.redo_which.specs.Candidates.{Place};
    ghost use Rattle.redo_which.specs.inside.Passed.{places_left};
    ghost use Rattle.redo_which.specs.inside.Slots.{IsNext};

    ghost Value = { List Place };

    ghost view = { λ s. places_left s.name.now s.next };

    ghost invariant = { λ s. IsNext s.name.now s.next };
}

impl<'a> Iterator for Candidates<'a> {
    type Item = CandidateRef<'a>;

    ghost next_gives = { YieldsFirst (λ left. left) };

    ghost remaining = { item_count (λ left. left) };

    fn next(&mut self) -> Option<CandidateRef<'a>> {
        loop {
            let candidate = match self.next {
                Next::Whole(dir) => {
                    self.next = after_name(self.name, dir);
                    CandidateRef::by_name(dir, self.name)
                }
                Next::Suffix(dir, end) => {
                    let suffix = first_suffix(end);
                    self.next = after_suffix(self.name, dir, suffix);
                    CandidateRef::by_suffix(dir, suffix)
                }
                Next::Nothing => return None,
            };
            // A candidate whose path is too long is left out.
            if candidate.is_some() {
                return candidate;
            }
        }
    }
}

impl<'a> Candidates<'a> {
    /// The candidates of a target.
    pub(crate) fn of(target: &'a Path) -> Candidates<'a>
        ensures candidates { result ≡ candidates_of target.now }
        ensures few { length result ≤ 2 ^ 20 }
        ensures target { IsTarget target.now }
    {
        let name = target.name();
        let next = match parent_of_text(target.text()) {
            Some(dir) => first_next(target.text(), name, dir),
            None => Next::Nothing,
        };
        Candidates { name, next }
    }

    /// No candidates.
    pub(crate) fn none() -> Candidates<'a>
        ensures { result ≡ [] }
    {
        Candidates {
            name: b"",
            next: Next::Nothing,
        }
    }

    /// A copy of these candidates.
    pub(crate) fn again(&self) -> Candidates<'a>
        ensures { result ≡ self.now }
    {
        Candidates {
            name: self.name,
            next: self.next,
        }
    }

    /// Whether a quick look shows that these candidates equal others: the next directory and the suffixes are the same.
    /// If the result is `false`, they may still be equal.
    pub(crate) fn is_same(&self, other: &Candidates<'_>) -> bool
        ensures { IsTrue result → self.now ≡ other.now }
    {
        let (Next::Suffix(dir, end), Next::Suffix(other_dir, other_end)) = (self.next, other.next)
        else {
            return false;
        };
        dir == other_dir
            && first_suffix(end) == first_suffix(other_end)
            && first_suffix(self.name) == first_suffix(other.name)
    }

    /// Skips the next directories as long as the tree knows that they hold no `default*.do`. Returns how many
    /// candidates it skipped. In the middle of a directory it skips nothing.
    pub(crate) fn skip_directories(&mut self, tree: &Tree) -> usize
        requires { length self.old ≤ 2 ^ 20 }
        ensures { Passes tree.now result self.old self.new }
    {
        let mut count = 0;
        let name = self.name;
        let dots = dots(name);
        while let Next::Suffix(dir, end) = self.next
            && end == name
            && !tree.holds_defaults(dir)
        {
            count += count_by(dir, end, dots);
            self.next = above(self.name, dir);
        }
        count
    }
}

/// The number of candidates in a directory by the suffixes of this end of a name, which has `dots` dots. If the end
/// itself is short enough, so are all its suffixes.
fn count_by(dir: &[u8], end: &[u8], dots: usize) -> usize
    requires path { IsPath dir.now }
    requires part { IsPart end.now }
    requires dots { dots ≡ length (filter is_dot end.now) }
    ensures { result ≡ length (flat_map (λ places. places) (slots_by (suffixes end.now) dir.now)) }
{
    if fits(dir, b"default", end) {
        dots + 1
    } else {
        count_each(dir, end)
    }
}

/// The number of dots in a text.
fn dots(text: &[u8]) -> usize
    ensures { result ≡ length (filter is_dot text.now) }
{
    text.iter().filter(|byte| **byte == b'.').count()
}

/// The number of these candidates, found by looking at each suffix.
fn count_each(dir: &[u8], end: &[u8]) -> usize
    requires path { IsPath dir.now }
    requires part { IsPart end.now }
    ensures { result ≡ length (flat_map (λ places. places) (slots_by (suffixes end.now) dir.now)) }
{
    let mut count = 0;
    let mut left = end;
    loop {
        let suffix = first_suffix(left);
        if fits(dir, b"default", suffix) {
            count += 1;
        }
        if suffix.is_empty() {
            return count;
        }
        left = &suffix[1..];
    }
}

/// Where the search begins: at the whole name in the target's directory, unless no rule makes the target.
fn first_next<'a>(target: &[u8], name: &'a [u8], dir: &'a [u8]) -> Next<'a>
    requires path { IsPath dir.now }
    requires part { IsPart name.now }
    ensures left { flat_map (λ places. places) (slots_left name.now result)
        ≡ if ends_with nat_eq name.now (codes ".do") || is_reserved_path target.now then []
        else distinct_places dir.now name.now }
    ensures next { IsNext name.now result }
{
    if is_never_made(target, name) {
        Next::Nothing
    } else {
        Next::Whole(dir)
    }
}

/// Whether the target with this text is the book or the journal.
fn is_reserved(target: &[u8]) -> bool
    ensures { result ≡ is_reserved_path target.now }
{
    target == BOOK || target == JOURNAL
}

/// Whether the target with this text and name is one that no rule makes: a .do file, the book or the journal.
fn is_never_made(target: &[u8], name: &[u8]) -> bool
    ensures { result ≡ (ends_with nat_eq name.now (codes ".do") || is_reserved_path target.now) }
{
    name.ends_with(b".do") || is_reserved(target)
}

/// What comes after the whole name: the suffixes, without the longest if its candidate is the one by the whole name.
fn after_name<'a>(name: &'a [u8], dir: &'a [u8]) -> Next<'a>
    requires path { IsPath dir.now }
    requires part { IsPart name.now }
    ensures left { slots_left name.now result
        ≡ slots_by (without_whole name.now (suffixes name.now)) dir.now ++ slots_above name.now dir.now }
    ensures next { IsNext name.now result }
{
    let longest = first_suffix(name);
    if is_default(name, longest) {
        after_suffix(name, dir, longest)
    } else {
        Next::Suffix(dir, name)
    }
}

/// What comes after a suffix: the shorter ones, then those in the directory above.
fn after_suffix<'a>(name: &'a [u8], dir: &'a [u8], suffix: &'a [u8]) -> Next<'a>
    requires path { IsPath dir.now }
    requires name { IsPart name.now }
    requires suffix { IsPart suffix.now }
    ensures left { slots_left name.now result ≡ slots_by (shorter suffix.now) dir.now ++ slots_above name.now dir.now }
    ensures next { IsNext name.now result }
{
    if suffix.is_empty() {
        above(name, dir)
    } else {
        Next::Suffix(dir, &suffix[1..])
    }
}

/// What comes after a directory: the suffixes in the one above.
fn above<'a>(name: &'a [u8], dir: &'a [u8]) -> Next<'a>
    requires path { IsPath dir.now }
    requires name { IsPart name.now }
    ensures left { slots_left name.now result ≡ slots_above name.now dir.now }
    ensures next { IsNext name.now result }
{
    match parent_of_text(dir) {
        Some(parent) => Next::Suffix(parent, name),
        None => Next::Nothing,
    }
}

/// The longest suffix of a text: from its first dot on, or empty.
fn first_suffix(text: &[u8]) -> &[u8]
    requires { IsPart text.now }
    ensures first { suffixes text.now ≡ result.now ∷ shorter result.now }
    ensures part { IsPart result.now }
    ensures within { length result.now ≤ length text.now }
{
    &text[first_dot(text)..]
}

/// The offset of the first dot of a text, or its length.
fn first_dot(text: &[u8]) -> usize
    ensures { IsFirstDot text.now result }
{
    match text.iter().position(|byte| *byte == b'.') {
        Some(dot) => dot,
        None => text.len(),
    }
}

/// Whether a name is `default` followed by this suffix.
fn is_default(name: &[u8], suffix: &[u8]) -> bool
    ensures { result ≡ bytes_eq name.now (codes "default" ++ suffix.now) }
{
    match name.strip_prefix(b"default") {
        Some(rest) => rest == suffix,
        None => false,
    }
}

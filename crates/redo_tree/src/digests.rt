//! Making digests of contents, four at a time, and keeping them; those of a tree's files.

ghost use Rattle.std.specs.Prelude.{◌≡◌, ◌<◌, ℕ, List, Option, Some, drop, length, option_copied, slice_get};
ghost use Rattle.std.specs.Prelude.{slice_index_or};
ghost use Rattle.sha2.specs.Sha256.{sha256};
ghost use Rattle.redo_tree.specs.Tree.{node_of, bytes_of as file_bytes};

use crate::{Content, Entry};
use redo_digest::{Digest, Fours, Next};
use std::thread;
use std::thread::Threads;

/// How many bytes to digest are worth a thread: a millisecond of work, as beside busy processes a thread may get its
/// turn that late.
const BYTES_FOR_ONE: usize = 1 << 19;

/// Whether the entry with this number is named. Numbers past the end aren't.
pub(crate) fn is_named(named: &[bool], number: usize) -> bool {
    match named.get(number) {
        Some(is) => *is,
        None => false,
    }
}

/// Makes the digest of a file and keeps it.
pub(crate) fn keep_digest(entry: &mut Entry)
    ensures { entry.new ≡ entry.old }
{
    match entry {
        Entry::Directory => {}
        Entry::File(content) => content.keep_digest(),
    }
}

/// Which values of a type may have a content. A marker stands for the type, so that another crate can say it of a type
/// that it only uses.
pub trait Contents {
    type Of;

    /// The bytes of a value's content, if it has one.
    ghost bytes_in: { Self.Of → Option (List ℕ) };

    /// The content of a value, if it has one.
    fn content(value: &Self::Of) -> Option<&Content>
        ensures { option_copied result ≡ bytes_in value.now };

    /// Keeps a digest that was made of a value's content.
    fn put_digest(value: &mut Self::Of, digest: Digest)
        requires { (content : List ℕ) → bytes_in value.old ≡ Some content → digest ≡ sha256 content }
        ensures { value.new ≡ value.old };
}

/// Entries that are files have one.
pub(crate) struct Files;

impl Contents for Files {
    type Of = Entry;

    ghost bytes_in = { λ entry. file_bytes (node_of entry) };

    fn content(value: &Entry) -> Option<&Content> {
        match value {
            Entry::Directory => None,
            Entry::File(content) => Some(content),
        }
    }

    fn put_digest(value: &mut Entry, digest: Digest) {
        match value {
            Entry::Directory => {}
            Entry::File(content) => content.put_digest(digest),
        }
    }
}

/// The bytes of the content of the value with this number; none if it has no content.
fn bytes_at<C: Contents>(values: &[C::Of], number: usize) -> &[u8]
    ensures { (value : C.Of) (content : List ℕ) → slice_get values.now number ≡ Some value →
        C.bytes_in value ≡ Some content → result.now ≡ content }
{
    let Some(value) = values.get(number) else {
        return b"";
    };
    match C::content(value) {
        Some(content) => content.bytes(),
        None => b"",
    }
}

/// Keeps the digest of the value with this number, if it has a content.
fn put<C: Contents>(values: &mut [C::Of], number: usize, digest: Digest)
    requires { (value : C.Of) (content : List ℕ) → slice_get values.old number ≡ Some value →
        C.bytes_in value ≡ Some content → digest ≡ sha256 content }
    ensures { values.new ≡ values.old }
{
    if number < values.len() {
        C::put_digest(&mut values[number], digest);
    }
}

/// Makes the digests of the contents of the values with these numbers and keeps them.
fn keep_four<C: Contents>(values: &mut [C::Of], numbers: [usize; 4])
    ensures { values.new ≡ values.old }
{
    let [a, b, c, d] = numbers;
    let [first, second, third, fourth] = Digest::of_four(
        bytes_at::<C>(values, a),
        bytes_at::<C>(values, b),
        bytes_at::<C>(values, c),
        bytes_at::<C>(values, d),
    );
    put::<C>(values, a, first);
    put::<C>(values, b, second);
    put::<C>(values, c, third);
    put::<C>(values, d, fourth);
}

/// The same, if there are four to be digested now.
fn keep_next<C: Contents>(values: &mut [C::Of], next: Next)
    ensures { values.new ≡ values.old }
{
    match next {
        Next::Four(numbers) => keep_four::<C>(values, numbers),
        Next::Alone | Next::Waits => {}
    }
}

/// What is to be digested after a value, whose content may have a digest.
pub(crate) fn next_after<C: Contents>(fours: &mut Fours, value: &C::Of, number: usize) -> Next {
    match C::content(value) {
        Some(content) if !content.has_digest() => fours.add(number, content.bytes().len()),
        _ => Next::Waits,
    }
}

/// Makes the digests of the contents of named values, those with the numbers of which `is_named` says so, four of about
/// one length at a time, and keeps them. Some long contents are left.
pub fn keep_fours<C: Contents, F: Fn(usize) -> bool>(values: &mut [C::Of], is_named: F)
    requires { F.IsAlwaysCallable is_named }
    ensures { values.new ≡ values.old }
{
    let mut fours = Fours::new();
    'values: for number in 0..values.len() {
        if is_named(number) {
            let next = next_after::<C>(&mut fours, &values[number], number);
            keep_next::<C>(values, next);
        }
    }
    let [one, two, three, four] = fours.rest();
    keep_next::<C>(values, one);
    keep_next::<C>(values, two);
    keep_next::<C>(values, three);
    keep_next::<C>(values, four);
}

/// Makes the digests of the named files and keeps them.
pub(crate) fn keep_digests(entries: &mut [Entry], named: &[bool])
    ensures { entries.new ≡ entries.old }
{
    keep_fours::<Files, _>(entries, |number| is_named(named, number));
    'entries: for number in 0..entries.len() {
        if is_named(named, number) {
            keep_digest(&mut entries[number]);
        }
    }
}

/// About how many bytes SHA-256 processes for an entry: at least one block of 64 for a file without a digest.
fn bytes_to_read(entry: &Entry) -> usize {
    match entry {
        Entry::File(content) if !content.has_digest() => content.bytes().len().saturating_add(64),
        _ => 0,
    }
}

/// How many threads the digests of the named files are worth: at most `most`, but at least 1.
pub(crate) fn threads_for(entries: &[Entry], named: &[bool], most: usize) -> usize
    ensures { 0 < result }
{
    let mut bytes = 0usize;
    'entries: for (number, entry) in entries.iter().enumerate() {
        if is_named(named, number) {
            bytes = bytes.saturating_add(bytes_to_read(entry));
        }
    }
    (bytes / BYTES_FOR_ONE).min(most).max(1)
}

/// The marks from this number on.
fn marks_from(named: &[bool], number: usize) -> &[bool]
    ensures { result.now ≡ drop number named.now }
{
    if number < named.len() {
        &named[number..]
    } else {
        &[]
    }
}

/// Makes and keeps the digests of the named files on `threads` threads, each over consecutive entries.
fn keep_digests_in<R: Threads + Sync>(rt: &R, threads: usize, entries: &mut [Entry], named: &[bool])
    requires { 0 < threads }
    ensures { (n : ℕ) (e : Entry) → n < length entries.old →
        slice_index_or entries.new n e ≡ slice_index_or entries.old n e }
{
    let size = entries.len().div_ceil(threads).max(1);
    thread::for_each_chunk_mut(
        rt,
        entries,
        size,
        &|start, part: &mut [Entry]| keep_digests(part, marks_from(named, start)),
    );
}

/// The same on at most `threads` threads, as many as the bytes to read are worth.
pub(crate) fn keep_digests_by<R: Threads + Sync>(
    rt: &R,
    threads: usize,
    entries: &mut [Entry],
    named: &[bool],
)
    ensures { entries.new ≡ entries.old }
{
    let threads = threads_for(entries, named, threads);
    keep_digests_in(rt, threads, entries, named);
}

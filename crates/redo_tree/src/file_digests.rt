//! The digests of a tree's files, each made when it is first asked for.

ghost use Rattle.std.specs.Prelude.{◌≡◌, ℕ, List, IfOk, Some, slice_get};
ghost use Rattle.sha2.specs.Sha256.{sha256};
ghost use Rattle.redo_digest.specs.Digest.{IsState, state_of};
ghost use Rattle.redo_tree.specs.Tree.{file_at, tree_of};
ghost use Rattle.redo_tree.specs.declared.entries.Entry.TheVariants.{File};
ghost use Rattle.redo_tree.specs.inside.Digests.{AreMade, FindsNodes};

use crate::Entry;
use crate::digests::{Files, is_named, next_after};
use redo_digest::laws::a_content_has_a_digest;
use redo_digest::{Digest, Fours, Next};
use redo_names::PathMap;
use redo_path::Path;
use std::alloc::{AllocError, Global};
use std::marker::Model;

/// The digests of a tree's files. Each is made once, when it is first asked for, unless the content has kept it. In a
/// contract it is the tree.
#[derive(Drop)]
pub struct FileDigests<'a> {
    entries: &'a PathMap<Entry>,
    /// The digest of the entry with each number, once it is made.
    made: Vec<Option<Digest>>,
}

impl<'a> Model for FileDigests<'a> {
    ghost use Rattle.redo_tree.specs.Tree.{Tree, tree_of};
    ghost use Rattle.redo_tree.specs.inside.Digests.{AreMade};

    ghost Value = { Tree };

    ghost view = { λ d. tree_of d.entries.now };

    ghost invariant = { λ d. AreMade d.entries.now d.made.items };
}

impl<'a> FileDigests<'a> {
    /// The digests of the files among a tree's entries. None is made yet.
    pub(crate) fn new(
        alloc: Global,
        entries: &'a PathMap<Entry>,
    ) -> Result<FileDigests<'a>, AllocError>
        requires { FindsNodes entries.now }
        ensures { IfOk result (λ digests. digests ≡ tree_of entries.now) }
    {
        let mut made = Vec::new(alloc);
        made.resize(entries.len(), None)?;
        Ok(FileDigests { entries, made })
    }

    /// Makes digests of the named files, those of the numbers at which `named` is true, four of about one length at a
    /// time. Some long files are left.
    pub fn prepare(&mut self, named: &[bool])
        ensures { self.new ≡ self.old }
    {
        make_fours(self.entries, &mut self.made, named);
    }

    /// The state of a path: the digest of the file there, or `None` if there is no file.
    pub fn state_at(&mut self, path: &Path) -> Option<Digest>
        ensures value { result ≡ state_of (file_at self.old path.now) }
        ensures state { IsState result }
        ensures same { self.new ≡ self.old }
    {
        a_content_has_a_digest();
        let number = self.entries.number_by_text(path.text())?;
        let (_, Entry::File(content)) = self.entries.at(number) else {
            return None;
        };
        if let Some(digest) = self.made[number] {
            return Some(digest);
        }
        let digest = content.digest();
        self.made[number] = Some(digest);
        Some(digest)
    }
}

/// The bytes of the entry with this number; none if it is no file.
fn bytes_at(entries: &PathMap<Entry>, number: usize) -> &[u8]
    ensures { (path content : List ℕ) → slice_get entries.now number ≡ Some (path, File content) →
        result.now ≡ content }
{
    if number >= entries.len() {
        return b"";
    }
    match entries.at(number) {
        (_, Entry::File(content)) => content.bytes(),
        (_, Entry::Directory) => b"",
    }
}

/// Notes a digest that was made of the entry with this number, if that is a file.
fn put(entries: &PathMap<Entry>, made: &mut [Option<Digest>], number: usize, digest: Digest)
    requires made { AreMade entries.now made.old }
    requires digest { (path content : List ℕ) → slice_get entries.now number ≡ Some (path, File content) →
        digest ≡ sha256 content }
    ensures { AreMade entries.now made.new }
{
    if number >= made.len() {
        return;
    }
    if let (_, Entry::File(_)) = entries.at(number) {
        made[number] = Some(digest);
    }
}

/// Makes the digests of the entries with these numbers.
fn make_four(entries: &PathMap<Entry>, made: &mut [Option<Digest>], numbers: [usize; 4])
    requires { AreMade entries.now made.old }
    ensures { AreMade entries.now made.new }
{
    let [a, b, c, d] = numbers;
    let [first, second, third, fourth] = Digest::of_four(
        bytes_at(entries, a),
        bytes_at(entries, b),
        bytes_at(entries, c),
        bytes_at(entries, d),
    );
    put(entries, made, a, first);
    put(entries, made, b, second);
    put(entries, made, c, third);
    put(entries, made, d, fourth);
}

/// The same, if there are four to be digested now.
fn make_next(entries: &PathMap<Entry>, made: &mut [Option<Digest>], next: Next)
    requires { AreMade entries.now made.old }
    ensures { AreMade entries.now made.new }
{
    match next {
        Next::Four(numbers) => make_four(entries, made, numbers),
        Next::Alone | Next::Waits => {}
    }
}

/// Makes digests of the named files, four of about one length at a time.
fn make_fours(entries: &PathMap<Entry>, made: &mut [Option<Digest>], named: &[bool])
    requires { AreMade entries.now made.old }
    ensures { AreMade entries.now made.new }
{
    let mut fours = Fours::new();
    'entries: for number in 0..entries.len() {
        if is_named(named, number) {
            let next = next_after::<Files>(&mut fours, entries.at(number).1, number);
            make_next(entries, made, next);
        }
    }
    let [one, two, three, four] = fours.rest();
    make_next(entries, made, one);
    make_next(entries, made, two);
    make_next(entries, made, three);
    make_next(entries, made, four);
}

//! A candidate as pieces of its target's text. No path is made of a candidate that is no file.

ghost use Rattle.std.specs.Prelude.{◌≡◌, ◌++◌, ◌∷◌, [], IfOk, OnErr, OnOk, codes, false, is_err, length, nat_le, ◌&&◌};
ghost use Rattle.std.specs.Prelude.{take};
ghost use Rattle.std.specs.Option.{option_to_list};
ghost use Rattle.redo_path.specs.Names.{IsPart, IsPath, child_of};
ghost use Rattle.redo_path.specs.Resolve.{resolved};
ghost use Rattle.redo_which.specs.Candidates.{place_at};
ghost use Rattle.redo_which.specs.inside.Pieces.{prefix_of};
ghost use Rattle.redo_which.specs.Views.{place_of};

use crate::Candidate;
use redo_path::{LONGEST_NAME, LONGEST_PATH, Path};
use std::alloc::{AllocError, Global};
use std::marker::Model;

/// A candidate in pieces, without a path of its own. In a contract it is the place of the candidate.
#[derive(Drop)]
pub struct CandidateRef<'a> {
    dir: &'a [u8],
    /// What is between the directory and the suffix: a slash, unless the directory is the root, and then `default`,
    /// unless the candidate has the target's whole name.
    prefix: &'a [u8],
    /// The target's whole name, or a suffix of it.
    suffix: &'a [u8],
    cut: usize,
}

impl<'a> Model for CandidateRef<'a> {
    ghost use Rattle.redo_which.specs.Candidates.{Place};
    ghost use Rattle.redo_which.specs.inside.Pieces.{ArePieces, place_in_pieces};

    ghost Value = { Place };

    ghost view = { λ s. place_in_pieces s.dir.now s.prefix.now s.suffix.now s.cut };

    ghost invariant = { λ s. ArePieces s.dir.now s.prefix.now s.suffix.now };
}

impl<'a> CandidateRef<'a> {
    /// The candidate in a directory by the whole name, unless its path is too long.
    pub(crate) fn by_name(dir: &'a [u8], name: &'a [u8]) -> Option<CandidateRef<'a>>
        requires path { IsPath dir.now }
        requires part { IsPart name.now }
        ensures { option_to_list result ≡ place_at dir.now 0 (name.now ++ codes ".do") }
    {
        CandidateRef::new(dir, b"", name_prefix(dir), name, 0)
    }

    /// The candidate in a directory by a suffix, unless its path is too long.
    pub(crate) fn by_suffix(dir: &'a [u8], suffix: &'a [u8]) -> Option<CandidateRef<'a>>
        requires path { IsPath dir.now }
        requires part { IsPart suffix.now }
        ensures { option_to_list result
            ≡ place_at dir.now (length suffix.now) (codes "default" ++ suffix.now ++ codes ".do") }
    {
        CandidateRef::new(dir, b"default", default_prefix(dir), suffix, suffix.len())
    }

    /// The candidate whose name is `front`, with which `prefix` ends, then the suffix, then `.do`.
    fn new(
        dir: &'a [u8],
        front: &[u8],
        prefix: &'a [u8],
        suffix: &'a [u8],
        cut: usize,
    ) -> Option<CandidateRef<'a>>
        requires path { IsPath dir.now }
        requires part { IsPart (front.now ++ suffix.now) }
        requires prefix { prefix.now ≡ prefix_of dir.now front.now }
        ensures { option_to_list result ≡ place_at dir.now cut (front.now ++ suffix.now ++ codes ".do") }
    {
        if !fits(dir, front, suffix) {
            return None;
        }
        Some(CandidateRef {
            dir,
            prefix,
            suffix,
            cut,
        })
    }

    /// Appends the text of the .do file's path. If memory runs out, a prefix of it may have been appended.
    pub fn spell(&self, text: &mut Vec<u8>) -> Result<(), AllocError>
        ensures path { IsPath self.now.do_file }
        ensures text { OnOk result (text.new.items ≡ text.old.items ++ self.now.do_file) }
        ensures begun { OnErr result (take (length text.old.items) text.new.items ≡ text.old.items) }
    {
        text.extend_from_slice(self.dir)?;
        text.extend_from_slice(self.prefix)?;
        text.extend_from_slice(self.suffix)?;
        text.extend_from_slice(b".do")
    }

    /// The length of the .do file's path in bytes.
    pub fn size(&self) -> usize
        ensures { result ≡ length self.now.do_file }
    {
        self.dir.len() + self.prefix.len() + self.suffix.len() + 3
    }

    /// The text of the .do file's path in three pieces, without the `.do` at its end.
    pub fn pieces(&self) -> (&'a [u8], &'a [u8], &'a [u8])
        ensures { result.0.now ++ result.1.now ++ result.2.now ++ codes ".do" ≡ self.now.do_file }
    {
        (self.dir, self.prefix, self.suffix)
    }

    /// The path of the .do file.
    pub(crate) fn do_file(&self, alloc: Global) -> Result<Path, AllocError>
        ensures { IfOk result (λ path. path ≡ self.now.do_file) }
    {
        let mut text = Vec::new(alloc);
        self.spell(&mut text)?;
        Path::of_text(alloc, &text)
    }

    /// The candidate with its .do file's path, which the caller has made.
    pub(crate) fn with_path(&self, alloc: Global, do_file: Path) -> Result<Candidate, AllocError>
        requires { do_file ≡ self.now.do_file }
        ensures { IfOk result (λ candidate. place_of candidate ≡ self.now) }
    {
        let dir = Path::of_text(alloc, self.dir)?;
        let cut = self.cut;
        Ok(Candidate { do_file, dir, cut })
    }
}

/// What is between a directory and a name in it.
fn name_prefix(dir: &[u8]) -> &[u8]
    ensures { result.now ≡ prefix_of dir.now [] }
{
    match dir {
        [] => b"",
        _ => b"/",
    }
}

/// What is between a directory and the suffix of a candidate in it.
fn default_prefix(dir: &[u8]) -> &[u8]
    ensures { result.now ≡ prefix_of dir.now (codes "default") }
{
    match dir {
        [] => b"default",
        _ => b"/default",
    }
}

/// Whether the path of a .do file in a directory is short enough.
pub(crate) fn fits(dir: &[u8], front: &[u8], suffix: &[u8]) -> bool
    requires { IsPath dir.now }
    ensures { result ≡ (nat_le (length (front.now ++ suffix.now ++ codes ".do")) 255
        && nat_le (length (child_of dir.now (front.now ++ suffix.now ++ codes ".do"))) 1024) }
{
    let name = front.len().saturating_add(suffix.len()).saturating_add(3);
    let above = if dir.is_empty() {
        0
    } else {
        dir.len().saturating_add(1)
    };
    name <= LONGEST_NAME && above.saturating_add(name) <= LONGEST_PATH
}

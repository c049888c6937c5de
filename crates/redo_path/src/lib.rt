//! Canonical paths below one top directory, by which redo names targets and dependencies.
//!
//! A path is a list of names joined by slashes. No name is empty, `.` or `..`, and the text of the top directory is
//! empty. So each file has exactly one path, and paths are compared, sorted and stored as bytes. [`resolve`] turns a
//! word of a script or of the command line into a path, relative to a directory, as redo-ifchange(1) does with its
//! operands. It reads no disk: `zz/../src` is `src` whatever `zz` is.
//!
//! - here: [`Path`] and [`PathFault`];
//! - `text`: splitting a path's text, and limits on its length;
//! - `words`: resolving a word, part by part;
//! - [`laws`]: theorems about the definitions, for the crates above.
#![tactic(auto)]

ghost use Rattle.std.specs.Prelude.{◌≡◌, ◌++◌, ◌∷◌, [], IfOk, IfSome, Some, nat_eq, option_copied, refl};
ghost use Rattle.std.specs.Cmp.{partial_equiv_from_equiv};
ghost use Rattle.std.specs.Cmp.Lexicographic.{nat_list_cmp_total, nat_list_eq_equiv, pointwise, slice_cmp, texts_po};
ghost use Rattle.std.specs.Cmp.Lexicographic.{texts_ties};
ghost use Rattle.std.specs.Ordering.{nat_cmp};
ghost use Rattle.redo_path.specs.declared.PathFault.TheVariants.{Memory};
ghost use Rattle.redo_path.specs.Names.{IsPath, name_of, names, parent_of};

pub mod laws;
mod text;
mod words;

use redo_bytes::{Bytes, are_equal, order_of};
use std::alloc::{AllocError, AllocFailed, Global};
use std::cmp::Ordering;
use std::marker::Model;
use text::last_name;
pub use text::{LONGEST_NAME, LONGEST_PATH, parent_of_text};
use thiserror::Error;
pub use words::resolve;

/// Why a word names no path. [`resolve`] says which fault it reports if there are several.
#[derive(Clone, Copy, Debug, PartialEq, Eq, Error)]
pub enum PathFault {
    /// The word is empty.
    #[error("the path is empty")]
    Empty,
    /// The word begins with a slash.
    #[error("the path begins with a slash")]
    Absolute,
    /// A `..` leads above the top directory.
    #[error("the path leads above the top directory")]
    Above,
    /// The word has a control byte, one below 32 or 127, at this offset from 0.
    #[error("a control byte at place {0}")]
    BadByte(usize),
    /// A name has more than 255 bytes.
    #[error("a name has more than 255 bytes")]
    LongName,
    /// The path that the word names has more than 1,024 bytes.
    #[error("the path has more than 1024 bytes")]
    LongPath,
    /// Out of memory.
    #[error("out of memory")]
    Memory,
}

impl From<AllocError> for PathFault {
    ghost from_gives = { λ _ fault. fault ≡ Memory };

    fn from(_error: AllocError) -> PathFault {
        PathFault::Memory
    }
}

impl<T: Drop> From<AllocFailed<T>> for PathFault {
    ghost from_gives = { λ _ fault. fault ≡ Memory };

    fn from(_error: AllocFailed<T>) -> PathFault {
        PathFault::Memory
    }
}

/// A canonical path. In a contract it is its text. A text of up to 22 bytes is stored in the path itself, which is
/// three words in size: most paths of a build are read without following a pointer. A longer text is stored once, and
/// clones share it.
#[derive(Debug)]
pub struct Path {
    text: Bytes,
}

impl Model for Path {
    ghost use Rattle.std.specs.Prelude.{List, ℕ};
    ghost use Rattle.redo_path.specs.Names.{IsPath};

    ghost Value = { List ℕ };

    ghost view = { λ p. p.text };

    ghost invariant = { λ p. IsPath p.text };
}

impl Path {
    ghost use Rattle.redo_path.specs.Names.{below_of};

    /// The top directory, whose text is empty. Needs no memory.
    pub fn root() -> Path
        ensures { result ≡ [] }
    {
        Path {
            text: Bytes::empty(),
        }
    }

    /// The path with a copy of this text, which isn't checked. Use it for a text that is known to be a path, such as
    /// one joined from names. Input is a word: give it to [`resolve`].
    pub fn of_text(alloc: Global, text: &[u8]) -> Result<Path, AllocError>
        requires { IsPath text.now }
        ensures { IfOk result (λ path. path ≡ text.now) }
    {
        let text = Bytes::from_slice(alloc, text)?;
        Ok(Path { text })
    }

    /// The names, joined by slashes; empty for the root.
    pub fn text(&self) -> &[u8]
        ensures text { result.now ≡ self.now }
        ensures path { IsPath self.now }
    {
        self.text.as_slice()
    }

    /// Whether the path has this text.
    pub fn has_text(&self, text: &[u8]) -> bool
        ensures { result ≡ pointwise nat_eq self.now text.now }
    {
        are_equal(self.text(), text)
    }

    /// The last name; empty for the root.
    pub fn name(&self) -> &[u8]
        ensures { result.now ≡ name_of self.now }
    {
        last_name(self.text())
    }

    /// The directory that contains this path; `None` for the root.
    pub fn parent(&self, alloc: Global) -> Result<Option<Path>, AllocError>
        ensures path { IsPath self.now }
        ensures text { IfOk result (λ parent. parent ≡ parent_of self.now) }
        ensures names { IfOk result (λ parent. IfSome parent (λ up. names self.now ≡
            names up ++ name_of self.now ∷ [])) }
    {
        match parent_of_text(self.text()) {
            Some(up) => Ok(Some(Path::of_text(alloc, up)?)),
            None => Ok(None),
        }
    }

    /// The text of the directory that contains this path; `None` for the root. Needs no memory.
    pub fn parent_text(&self) -> Option<&[u8]>
        ensures path { IsPath self.now }
        ensures text { option_copied result ≡ parent_of self.now }
    {
        parent_of_text(self.text())
    }

    /// What follows `dir` and its slash: the whole text if `dir` is the root, nothing if `dir` is this path, `None` if
    /// `dir` isn't above it.
    pub fn below(&self, dir: &Path) -> Option<&[u8]>
        ensures { option_copied result ≡ below_of self.now dir.now }
    {
        let text = self.text();
        let above = dir.text();
        if above.is_empty() {
            return Some(text);
        }
        let rest = text.strip_prefix(above)?;
        match rest.split_first() {
            None => Some(rest),
            Some((b'/', below)) => Some(below),
            Some(_) => None,
        }
    }
}

// Written by hand so that callers drop a path with one call, without a match on its field.
impl Drop for Path {
    fn drop(self) {
        let Path { text: _text } = self;
    }
}

impl Clone for Path {
    ghost is_clone = { λ path copy. copy ≡ path };

    fn clone(&self) -> Result<Path, AllocError> {
        let text = self.text.clone()?;
        Ok(Path { text })
    }
}

impl PartialEq for Path {
    ghost eq = { pointwise nat_eq };

    ghost laws = { partial_equiv_from_equiv nat_list_eq_equiv };

    fn eq(&self, other: &Path) -> bool {
        self.text == other.text
    }
}

impl Eq for Path {
    ghost laws = { nat_list_eq_equiv };
}

impl PartialOrd for Path {
    ghost partial_cmp = { λ x y. Some (slice_cmp nat_cmp x y) };

    ghost laws = { texts_po };

    fn partial_cmp(&self, other: &Path) -> Option<Ordering> {
        Some(self.cmp(other))
    }
}

/// Paths are ordered by the bytes of their texts.
impl Ord for Path {
    ghost cmp = { slice_cmp nat_cmp };

    ghost total = { nat_list_cmp_total };

    ghost matches_partial_cmp = { λ x y. refl };

    ghost matches_eq = { texts_ties };

    fn cmp(&self, other: &Path) -> Ordering {
        order_of(self.text(), other.text())
    }
}

/// The path with this text, which is taken over.
pub(crate) fn share(text: Vec<u8>) -> Result<Path, AllocError>
    requires { IsPath text.items }
    ensures { IfOk result (λ path. path ≡ text.items) }
{
    let text = Bytes::from_vec(text)?;
    Ok(Path { text })
}

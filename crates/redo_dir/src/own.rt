//! The program's own files in a directory: the journal, and what a run writes before it gets its name.

ghost use Rattle.std.specs.Prelude.{◌≡◌, ◌++◌, IfOk, codes, decimal, string_bytes, take};
ghost use Rattle.redo_dir.specs.Own.{temporary_front, temporary_name};
ghost use Rattle.redo_which.specs.Candidates.{journal_path as path_of_journal};

use redo_digest::Digest;
use redo_path::Path;
use redo_tree::Content;
use redo_which::JOURNAL;
use std::alloc::{AllocError, Global};
use std::marker::Model;

/// How many bytes of a journal's text, at most, are digested for the names of temporary files. To digest all of a long
/// text takes a quarter of the time of a run.
const FRONT_BYTES: usize = 4_096;

/// How many bytes of that digest, at two digits each, the names have.
const BYTES_OF_A_NAME: usize = 8;

/// The path of the journal.
pub fn journal_path(alloc: Global) -> Result<Path, AllocError>
    ensures { IfOk result (λ path. path ≡ path_of_journal) }
{
    Path::of_text(alloc, JOURNAL)
}

/// By what the temporary files of a run are told from all other files: their names have digits of the digest of the front
/// of its journal. In a contract it is the journal's text.
#[derive(Drop)]
pub struct Tag {
    text: Content,
    /// How the names begin.
    front: String,
}

impl Model for Tag {
    ghost use Rattle.std.specs.Prelude.{◌≡◌, List, string_bytes, ℕ};
    ghost use Rattle.redo_dir.specs.Own.{temporary_front};

    ghost Value = { List ℕ };

    ghost view = { λ t. t.text };

    ghost invariant = { λ t. string_bytes t.front ≡ temporary_front t.text };
}

/// The front of a journal's text that is digested.
fn front_of(text: &[u8]) -> &[u8]
    ensures { result.now ≡ take 4096 text.now }
{
    if text.len() <= FRONT_BYTES {
        return text;
    }
    &text[..FRONT_BYTES]
}

/// How the temporary names of a run begin that have these digits.
fn front_with(alloc: Global, digits: &str) -> Result<String, AllocError>
    ensures { IfOk result (λ front. string_bytes front ≡ codes ".redo-" ++ digits.now ++ codes "-") }
{
    format!(in alloc; ".redo-{digits}-")
}

/// The temporary name with this number that begins so.
fn name_with(alloc: Global, front: &str, number: u64) -> Result<String, AllocError>
    ensures { IfOk result (λ name. string_bytes name ≡ front.now ++ decimal number ++ codes ".tmp") }
{
    format!(in alloc; "{front}{number}.tmp")
}

impl Tag {
    /// That of the run whose journal has this text.
    pub fn of(alloc: Global, text: &Content) -> Result<Tag, AllocError>
        ensures { IfOk result (λ tag. tag ≡ text.now) }
    {
        let digest = Digest::of(front_of(text.bytes()));
        let digits = hex::encode(alloc, &digest.bytes()[..BYTES_OF_A_NAME])?;
        let front = front_with(alloc, &digits)?;
        let text = text.clone()?;
        Ok(Tag { text, front })
    }

    /// How the temporary names begin.
    pub fn front(&self) -> &str
        ensures { result.now ≡ temporary_front self.now }
    {
        &self.front
    }

    /// The temporary name with this number.
    pub fn name(&self, alloc: Global, number: u64) -> Result<String, AllocError>
        ensures { IfOk result (λ name. string_bytes name ≡ temporary_name self.now number) }
    {
        name_with(alloc, &self.front, number)
    }
}

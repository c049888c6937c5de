//! A directory in memory, which a run works in as in one of the system: its calls can be made to fail, and its names can
//! be those of a system that takes capital letters for small ones.

ghost use Rattle.redo_dir.specs.Stored.{steps_of};

use redo_dir::{Change, DirView, Drafted, Seen, Tag, WorkDir};
use redo_path::Path;
use redo_tree::Content;
use redo_which::JOURNAL;
use std::alloc::{AllocError, Global};
use std::io;
use std::io::ErrorKind;
use std::sync::atomic::AtomicU64;
use std::sync::atomic::Ordering::SeqCst;

/// What stands at a path: a directory, a file, or a link.
#[derive(Drop)]
pub(crate) enum Node {
    Directory,
    File(Content),
    Link,
}

/// A draft that waits for its name.
#[derive(Drop)]
pub(crate) struct MemoryDraft {
    path: Path,
    content: Content,
    name: String,
}

impl Drafted for MemoryDraft {
    ghost use Rattle.std.specs.Prelude.{string_bytes};

    ghost drafted = { λ d. (d.path, d.content) };

    ghost named = { λ d. string_bytes d.name };

    ghost gone = { λ _. Unit {0} };
}

/// The directory.
#[derive(Drop)]
pub(crate) struct MemoryDir {
    pub nodes: Vec<(Path, Node)>,
    pub done: Vec<Change>,
    tag: Option<Tag>,
    /// Whether `A` and `a` are one name.
    pub folds_case: bool,
    /// The call that fails, counted from 1.
    pub fails_at: u64,
    calls: AtomicU64,
}

impl MemoryDir {
    /// An empty directory, of which no call fails.
    pub(crate) fn new(alloc: Global) -> MemoryDir {
        MemoryDir {
            nodes: Vec::new(alloc),
            done: Vec::new(alloc),
            tag: None,
            folds_case: false,
            fails_at: 0,
            calls: AtomicU64::new(0),
        }
    }

    /// How many calls were made.
    pub(crate) fn calls(&self) -> u64 {
        self.calls.load(SeqCst)
    }

    /// Counts a call, and fails where it is its turn.
    fn count_call(&self) -> io::Result<()> {
        let before = self.calls.fetch_add(1, SeqCst);
        if before.wrapping_add(1) == self.fails_at {
            return Err(io::Error::from(ErrorKind::PermissionDenied));
        }
        Ok(())
    }

    /// Whether the directory takes two paths for one.
    fn is_same(&self, left: &Path, right: &Path) -> bool {
        if self.folds_case {
            left.text().eq_ignore_ascii_case(right.text())
        } else {
            left.text() == right.text()
        }
    }

    /// Whether something stands at a path.
    fn is_taken(&self, path: &Path) -> bool {
        self.nodes.iter().any(|node| self.is_same(&node.0, path))
    }
}

/// A copy of a file's bytes.
fn copied(alloc: Global, content: &Content) -> Result<Vec<u8>, AllocError> {
    let mut bytes = Vec::new(alloc);
    bytes.extend_from_slice(content.bytes())?;
    Ok(bytes)
}

/// A name as a listing answers it.
fn listed(alloc: Global, path: &Path) -> Result<Option<String>, AllocError> {
    match str::from_utf8(path.name()) {
        Ok(text) => Ok(Some(String::from_str(alloc, text)?)),
        Err(_) => Ok(None),
    }
}

impl DirView for MemoryDir {
    ghost lists = { λ _ _ _. Unit {0} };

    ghost looks = { λ _ _ _. Unit {0} };

    ghost lacks = { λ _ _. Unit {0} };

    ghost reads = { λ _ _ _ _. Unit {0} };

    ghost refuses = { λ _ _ _. Unit {0} };

    fn list(&self, alloc: Global, dir: &Path) -> io::Result<Vec<Option<String>>> {
        self.count_call()?;
        let mut names = Vec::new(alloc);
        for (path, _) in &self.nodes {
            if path.parent_text() == Some(dir.text()) {
                names.push(listed(alloc, path)?)?;
            }
        }
        Ok(names)
    }

    fn look(&self, alloc: Global, path: &Path) -> io::Result<Seen> {
        self.count_call()?;
        for (other, node) in &self.nodes {
            if self.is_same(other, path) {
                return match node {
                    Node::Directory => Ok(Seen::Directory),
                    Node::File(content) => Ok(Seen::File(content.bytes().len() as u64)),
                    Node::Link => Ok(Seen::Other),
                };
            }
        }
        Err(io::Error::from(ErrorKind::NotFound))
    }

    fn read(&self, alloc: Global, path: &Path, _size: u64) -> io::Result<Vec<u8>> {
        self.count_call()?;
        for (other, node) in &self.nodes {
            if self.is_same(other, path) {
                if let Node::File(content) = node {
                    return Ok(copied(alloc, content)?);
                }
            }
        }
        Err(io::Error::from(ErrorKind::NotFound))
    }
}

impl WorkDir for MemoryDir {
    ghost done = { λ d. steps_of d.done.items };

    ghost tagged = { λ d. d.tag };

    ghost settled = { λ _ _. Unit {0} };

    type Draft = MemoryDraft;

    fn journal(&mut self, alloc: Global, text: &Content) -> io::Result<()> {
        self.count_call()?;
        let tag = Tag::of(alloc, text)?;
        self.done.push(Change::Journal(text.clone()?))?;
        self.tag = Some(tag);
        Ok(())
    }

    fn resume(&mut self, alloc: Global, text: &Content) -> Result<(), AllocError> {
        self.tag = Some(Tag::of(alloc, text)?);
        Ok(())
    }

    fn finish(&mut self, _alloc: Global) -> io::Result<()> {
        self.count_call()?;
        self.done.push(Change::Finish)?;
        Ok(())
    }

    fn draft(
        &self,
        alloc: Global,
        path: &Path,
        content: &Content,
        number: u64,
    ) -> io::Result<MemoryDraft> {
        self.count_call()?;
        let Some(tag) = &self.tag else {
            return Err(io::Error::from(ErrorKind::InvalidInput));
        };
        if path.text() == JOURNAL {
            return Err(io::Error::from(ErrorKind::InvalidFilename));
        }
        Ok(MemoryDraft {
            path: path.clone()?,
            content: content.clone()?,
            name: tag.name(alloc, number)?,
        })
    }

    fn put(&mut self, draft: MemoryDraft, over: bool) -> io::Result<()> {
        self.count_call()?;
        if !over && self.is_taken(&draft.path) {
            return Err(io::Error::from(ErrorKind::AlreadyExists));
        }
        let MemoryDraft { path, content, .. } = draft;
        self.done.push(Change::Put(path, content, over))?;
        Ok(())
    }

    fn remove(&mut self, _alloc: Global, path: &Path) -> io::Result<()> {
        self.count_call()?;
        if !self.is_taken(path) {
            return Err(io::Error::from(ErrorKind::NotFound));
        }
        self.done.push(Change::Remove(path.clone()?))?;
        Ok(())
    }

    fn settle(&mut self, _alloc: Global, _paths: &[Path]) -> io::Result<()> {
        self.count_call()
    }

    fn count(&self) -> usize {
        self.done.len()
    }

    fn discard(&self, _draft: MemoryDraft) {}
}

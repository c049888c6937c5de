//! The tree: what is at each path.
//!
//! Entries are kept in the order in which they were added. They are sorted for [`Tree::in_order`] and [`Tree::files`]
//! alone, so memory may run out there and while a bundle is written.

ghost use Rattle.std.specs.Prelude.{◌≡◌, ◌<◌, ◌^◌, ◌↔◌, IfOk, IfSome, IsTrue, OnOk, false, length, option_copied, map};
ghost use Rattle.std.specs.Prelude.{option_map, is_some, List, ℕ};
ghost use Rattle.std.specs.Cmp.{partial_equiv_from_equiv};
ghost use Rattle.redo_path.specs.Names.{IsPath};
ghost use Rattle.redo_tree.specs.Tree.{Directory, File, top, node_at, kind_of, file_at, files_of, node_of, refusal};
ghost use Rattle.redo_tree.specs.Tree.{added, tree_eq, trees_alike, default_dir as dir_of_default};
ghost use Rattle.redo_tree.specs.Tree.{is_default as begins_and_ends, Adds, Allows, HasNoDefaults, IsNoted, IsTree};
ghost use Rattle.redo_tree.specs.Tree.{tree_of, AreAmong, HasEntry, HasFileOf, IsKept, without};
ghost use Rattle.redo_tree.specs.inside.Lengths.{is_long};

use crate::digests::{keep_digests, keep_digests_by};
use crate::parting::kept_of;
use crate::{Content, FileDigests, TreeFault};
use redo_names::{PathMap, PathSet};
use redo_path::Path;
use std::alloc::{AllocError, Global};
use std::collections::BTreeMap;
use std::marker::Model;
use std::thread::Threads;

/// What is at a path.
#[derive(Clone, Copy, Debug, PartialEq, Eq)]
pub enum Kind {
    /// A file.
    File,
    /// A directory.
    Dir,
    /// Neither a file nor a directory.
    Nothing,
}

/// What is at a path of the tree.
#[derive(Debug, PartialEq, Eq, Drop)]
pub enum Entry {
    Directory,
    File(Content),
}

/// The top directory, and the directories and files below it. The parent of each is a directory of the tree. In a
/// contract it is the list of its entries in path order, including the top directory. A look-up takes about the same
/// time in a tree of any size, whatever names it has.
pub struct Tree {
    entries: PathMap<Entry>,
    /// The directories that have a file `default*.do`.
    defaults: PathSet,
    alloc: Global,
}

impl Model for Tree {
    ghost use Rattle.std.specs.Coded.{coded×, coded_list, coded_ℕ};
    ghost use Rattle.redo_tree.specs.Tree.{Tree as Entries, node_code, tree_of, IsKept};

    ghost Value = { Entries };

    ghost coded = { coded_list (coded× (coded_list coded_ℕ) node_code) };

    ghost view = { λ t. tree_of t.entries };

    ghost invariant = { λ t. IsKept t.entries t.defaults };
}

/// Whether an entry is a file of at least `least` bytes.
fn is_file_of(entry: &Entry, least: usize) -> bool
    ensures { result ≡ is_long least (node_of entry.now) }
{
    match entry {
        Entry::Directory => false,
        Entry::File(content) => content.bytes().len() >= least,
    }
}

impl Tree {
    /// The top directory alone.
    pub fn new(alloc: Global) -> Result<Tree, AllocError>
        ensures { IfOk result (λ tree. tree ≡ top) }
    {
        let mut entries = PathMap::new(alloc);
        entries.insert(Path::root(), Entry::Directory)?;
        Ok(Tree {
            entries,
            defaults: PathSet::new(alloc),
            alloc,
        })
    }

    /// The number of entries, including the top directory.
    pub fn len(&self) -> usize
        ensures count { result ≡ length self.now }
        ensures small { result < 2 ^ 63 }
    {
        self.entries.len()
    }

    /// The number of the entry at a path, which no other entry has; `None` if nothing is there. It is for tables kept
    /// beside the tree. Entries are numbered from 0 in the order in which they were added.
    pub fn number_of(&self, path: &Path) -> Option<usize>
        ensures found { is_some result ≡ is_some (node_at self.now path.now) }
        ensures within { IfSome result (λ n. n < length self.now) }
    {
        self.entries.number_by_text(path.text())
    }

    /// The tree is one for which the laws hold: its paths are sorted, and the parent of each is a directory of it.
    pub fn is_tree(&self)
        ensures { IsTree self.now }
    {
        // Reading a field brings the invariant into the proof. Nothing runs.
        let _ = &self.entries;
    }

    /// The entry at the path with this text.
    fn entry(&self, text: &[u8]) -> Option<&Entry>
        ensures { option_map node_of (option_copied result) ≡ node_at self.now text.now }
    {
        self.entries.get_by_text(text)
    }

    /// What is at a path.
    pub fn kind(&self, path: &Path) -> Kind
        ensures { result ≡ kind_of (node_at self.now path.now) }
    {
        self.kind_by_text(path.text())
    }

    /// What is at the path with this text. No [`Path`] has to be made of the text.
    pub fn kind_by_text(&self, text: &[u8]) -> Kind
        ensures { result ≡ kind_of (node_at self.now text.now) }
    {
        match self.entry(text) {
            Some(Entry::File(_)) => Kind::File,
            Some(Entry::Directory) => Kind::Dir,
            None => Kind::Nothing,
        }
    }

    /// The bytes of the file at a path; `None` if there is no file.
    pub fn file(&self, path: &Path) -> Option<&[u8]>
        ensures { option_copied result ≡ file_at self.now path.now }
    {
        self.file_by_text(path.text())
    }

    /// The bytes of the file at the path with this text; `None` if there is no file. No [`Path`] has to be made of the
    /// text.
    pub fn file_by_text(&self, text: &[u8]) -> Option<&[u8]>
        ensures { option_copied result ≡ file_at self.now text.now }
    {
        match self.entry(text) {
            Some(Entry::File(content)) => Some(content.bytes()),
            _ => None,
        }
    }

    /// The content of the file at a path; `None` if there is no file.
    pub fn content(&self, path: &Path) -> Option<&Content>
        ensures { option_copied result ≡ file_at self.now path.now }
    {
        match self.entry(path.text()) {
            Some(Entry::File(content)) => Some(content),
            _ => None,
        }
    }

    /// Whether some file has at least `least` bytes. It looks at each entry once.
    pub fn has_file_of(&self, least: usize) -> bool
        ensures { IsTrue result ↔ HasFileOf self.now least }
    {
        'entries: for number in 0..self.entries.len() {
            let (_, entry) = self.entries.at(number);
            if is_file_of(entry, least) {
                return true;
            }
        }
        false
    }

    /// The digests of the tree's files, for a caller that asks for many.
    pub fn file_digests(&self, alloc: Global) -> Result<FileDigests<'_>, AllocError>
        ensures { IfOk result (λ digests. digests ≡ self.now) }
    {
        FileDigests::new(alloc, &self.entries)
    }

    /// Whether the directory at the path with this text may have a file `default*.do`. If the result is `false` it has
    /// none, so a search need not look up such names there one by one.
    pub fn holds_defaults(&self, dir: &[u8]) -> bool
        ensures none { result ≡ false → HasNoDefaults self.now dir.now }
    {
        self.defaults.number_by_text(dir).is_some()
    }

    /// The entries in path order, the top directory first. Each call sorts them.
    pub fn in_order<'a>(
        &'a self,
        alloc: Global,
    ) -> Result<BTreeMap<&'a Path, &'a Entry>, AllocError>
        ensures entries { IfOk result (λ sorted. map (λ e. (e.0.now, node_of e.1.now)) sorted.entries ≡ self.now) }
        ensures tree { IsTree self.now }
    {
        sorted(alloc, &self.entries)
    }

    /// The paths of the files, in path order, each once. Each call sorts all entries.
    pub fn files(&self, alloc: Global) -> Result<Vec<&Path>, AllocError>
        ensures { IfOk result (λ paths. map (λ p. p.now) paths.items ≡ files_of self.now) }
    {
        let mut paths = Vec::new(alloc);
        for (path, entry) in self.in_order(alloc)? {
            match entry {
                Entry::File(_) => paths.push(path)?,
                Entry::Directory => {}
            }
        }
        Ok(paths)
    }

    /// The tree without the files at these paths. Directories stay, and a path without a file is ignored. The contents
    /// are clones of this tree's, and share its bytes unless they are short.
    pub fn without(&self, alloc: Global, out: &[Path]) -> Result<Tree, AllocError>
        ensures { IfOk result (λ tree. tree ≡ without self.now out.now) }
    {
        let names = PathSet::of_paths(alloc, out)?;
        self.without_named(alloc, &names)
    }

    /// The same, with the paths as a set.
    fn without_named(&self, alloc: Global, names: &PathSet) -> Result<Tree, AllocError>
        ensures { IfOk result (λ tree. tree ≡ without self.now names.now) }
    {
        self.entries.each_once();
        let entries = kept_of(alloc, &self.entries, names)?;
        entries.each_once();
        // A directory whose file `default*.do` is taken out stays among these, which makes searches there no less right.
        let defaults = PathSet::of_paths(alloc, self.defaults.as_slice())?;
        Ok(Tree::of_entries(alloc, entries, defaults))
    }

    /// Makes the digests of the named files, those of the numbers at which `named` is true, and keeps them in the tree.
    /// Later clones of the contents have them, too.
    pub fn keep_digests(self, named: &[bool]) -> Tree
        ensures { result ≡ self }
    {
        let Tree {
            entries,
            defaults,
            alloc,
        } = self;
        let (paths, mut values) = entries.into_parts();
        keep_digests(values.as_mut_slice(), named);
        Tree::of_entries(alloc, PathMap::of_parts(paths, values), defaults)
    }

    /// The same on at most `threads` threads, as many as the bytes to read are worth.
    pub fn keep_digests_by<R: Threads + Sync>(self, rt: &R, threads: usize, named: &[bool]) -> Tree
        ensures { result ≡ self }
    {
        let Tree {
            entries,
            defaults,
            alloc,
        } = self;
        let (paths, mut values) = entries.into_parts();
        keep_digests_by(rt, threads, values.as_mut_slice(), named);
        Tree::of_entries(alloc, PathMap::of_parts(paths, values), defaults)
    }

    /// The tree of these entries. `defaults` has the directories that have a file `default*.do`.
    pub(crate) fn of_entries(alloc: Global, entries: PathMap<Entry>, defaults: PathSet) -> Tree
        requires { IsKept entries defaults }
        ensures { result ≡ tree_of entries }
    {
        Tree {
            entries,
            defaults,
            alloc,
        }
    }

    /// Adds a directory, whose parent must be a directory. If it fails, the tree is unchanged.
    pub fn add_dir(&mut self, path: &Path) -> Result<(), TreeFault>
        ensures { Adds result self.old self.new (added self.old path.now Directory) }
    {
        self.add(path, Entry::Directory)
    }

    /// Adds a file, whose parent must be a directory. It takes over the bytes and copies them only if they are short.
    /// If it fails, the tree is unchanged.
    pub fn add_file(&mut self, path: &Path, bytes: Vec<u8>) -> Result<(), TreeFault>
        ensures { Adds result self.old self.new (added self.old path.now (File bytes.items)) }
    {
        let content = Content::new(bytes)?;
        self.add_content(path, content)
    }

    /// Adds a file with this content, whose parent must be a directory. If it fails, the tree is unchanged.
    pub fn add_content(&mut self, path: &Path, content: Content) -> Result<(), TreeFault>
        ensures { Adds result self.old self.new (added self.old path.now (File content)) }
    {
        self.add(path, Entry::File(content))
    }

    /// What is at the path with this text, which is some entry's parent. The top directory is in each tree, so it isn't
    /// looked up.
    fn kind_of_parent(&self, text: &[u8]) -> Kind
        ensures { result ≡ kind_of (node_at self.now text.now) }
    {
        self.is_tree();
        if text.is_empty() {
            return Kind::Dir;
        }
        self.kind_by_text(text)
    }

    /// Whether an entry may be added at a path. The parent is checked first.
    fn check_place(&self, path: &Path, entry: &Entry) -> Result<(), TreeFault>
        ensures path { IsPath path.now }
        ensures place { Allows result (refusal self.now path.now (node_of entry.now)) }
    {
        if let Some(parent) = path.parent_text() {
            match self.kind_of_parent(parent) {
                Kind::Dir => {}
                Kind::File => return Err(TreeFault::IsFile),
                Kind::Nothing => return Err(TreeFault::NoDirectory),
            }
        }
        match (self.kind(path), entry) {
            (Kind::Nothing, _) => Ok(()),
            (Kind::Dir, Entry::File(_)) => Err(TreeFault::IsDirectory),
            (Kind::File, Entry::Directory) => Err(TreeFault::IsFile),
            _ => Err(TreeFault::Twice),
        }
    }

    /// Adds an entry, unless it is refused.
    fn add(&mut self, path: &Path, entry: Entry) -> Result<(), TreeFault>
        ensures { Adds result self.old self.new (added self.old path.now (node_of entry)) }
    {
        self.check_place(path, &entry)?;
        let path = path.clone()?;
        note_default(self.alloc, &mut self.defaults, &path, &entry)?;
        self.entries.insert(path, entry)?;
        Ok(())
    }
}

impl Clone for Tree {
    ghost is_clone = { λ tree copy. copy ≡ tree };

    /// A tree with the same entries. Its contents are clones.
    fn clone(&self) -> Result<Tree, AllocError> {
        let copy = self.without(self.alloc, &[])?;
        Ok(copy)
    }
}

/// The entries in path order.
fn sorted(alloc: Global, entries: &PathMap<Entry>) -> Result<BTreeMap<&Path, &Entry>, AllocError>
    ensures { IfOk result (λ sorted. map (λ e. (e.0.now, node_of e.1.now)) sorted.entries ≡ tree_of entries.now) }
{
    let mut sorted = BTreeMap::new(alloc);
    'entries: for number in 0..entries.len() {
        let (path, entry) = entries.at(number);
        sorted.insert(path, entry)?;
    }
    Ok(sorted)
}

/// Whether two maps have the same entries.
fn are_same(entries: &PathMap<Entry>, others: &PathMap<Entry>) -> bool
    ensures { IsTrue result ↔ (AreAmong entries.now others.now × AreAmong others.now entries.now) }
{
    are_among(entries, others) && are_among(others, entries)
}

/// Whether each of the entries is one of the others.
fn are_among(entries: &PathMap<Entry>, others: &PathMap<Entry>) -> bool
    ensures { IsTrue result ↔ AreAmong entries.now others.now }
{
    'entries: for number in 0..entries.len() {
        let (path, entry) = entries.at(number);
        if !is_among(path, entry, others) {
            return false;
        }
    }
    true
}

/// Whether the entry at a path is one of the others.
fn is_among(path: &Path, entry: &Entry, others: &PathMap<Entry>) -> bool
    ensures { IsTrue result ↔ HasEntry others.now path.now entry.now }
{
    match others.get(path) {
        Some(other) => entry == other,
        None => false,
    }
}

/// Notes the directory of an entry that is a file `default*.do`.
fn note_default(
    alloc: Global,
    dirs: &mut PathSet,
    path: &Path,
    entry: &Entry,
) -> Result<(), AllocError>
    ensures kept { (dir : List ℕ) → IsNoted dirs.old dir → IsNoted dirs.new dir }
    ensures noted { OnOk result (IfSome (dir_of_default path.now (node_of entry.now)) (IsNoted dirs.new)) }
{
    if let Some(dir) = default_dir(alloc, path, entry)? {
        dirs.insert(dir)?;
    }
    Ok(())
}

/// The directory of an entry that is a file `default*.do`; `None` for any other entry.
fn default_dir(alloc: Global, path: &Path, entry: &Entry) -> Result<Option<Path>, AllocError>
    ensures { IfOk result (λ dir. dir ≡ dir_of_default path.now (node_of entry.now)) }
{
    match entry {
        Entry::File(_) if is_default(path.name()) => path.parent(alloc),
        _ => Ok(None),
    }
}

/// Whether a name begins with `default` and ends in `.do`.
fn is_default(name: &[u8]) -> bool
    ensures { result ≡ begins_and_ends name.now }
{
    // The first byte tells nearly all names apart.
    name.first() == Some(&b'd') && name.starts_with(b"default") && name.ends_with(b".do")
}

// Written by hand so that callers drop a tree with one call, without a walk over its fields.
impl Drop for Tree {
    fn drop(self) {
        let Tree {
            entries: _entries,
            defaults: _defaults,
            alloc: _,
        } = self;
    }
}

/// Two trees are equal if they have the same entries. Their sizes are compared first.
impl PartialEq for Tree {
    ghost eq = { tree_eq };

    ghost laws = { partial_equiv_from_equiv trees_alike };

    fn eq(&self, other: &Tree) -> bool {
        self.len() == other.len() && are_same(&self.entries, &other.entries)
    }
}

impl Eq for Tree {
    ghost laws = { trees_alike };
}

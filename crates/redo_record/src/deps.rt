//! What a script declares, in order.

ghost use Rattle.std.specs.Prelude.{◌≡◌, ◌==◌, [], length, IfOk, OnOk, OnErr};
ghost use Rattle.redo_record.specs.Entries.{AreOnce, is_entered, with_entry};
ghost use Rattle.redo_record.specs.inside.Kinds.{paths_with};

use redo_names::PathSet;
use redo_path::Path;
use std::alloc::{AllocError, Global};
use std::marker::Model;

/// Whether a target must be rebuilt when a path changes, when something comes to exist at a path, or always.
#[derive(Clone, Copy, Debug, PartialEq, Eq)]
pub enum DepKind {
    Change,
    Create,
    /// Its entry has the root as its path, which means nothing there.
    Always,
}

/// An entry of a record.
#[derive(Clone, Debug, PartialEq, Eq, Drop)]
pub struct Dep {
    pub kind: DepKind,
    pub path: Path,
}

/// Up to this many entries are compared with each other rather than looked up. Most records have fewer.
const FEW: usize = 16;

/// How entries are stored. Many are boxed, since each target has a store and most records have few entries.
#[derive(Drop)]
enum Store {
    Few(Vec<Dep>),
    Many(Box<Many>),
}

/// Entries, with their paths by kind for looking them up. In a contract it is the list of the entries.
#[derive(Drop)]
struct Many {
    entries: Vec<Dep>,
    changed: PathSet,
    created: PathSet,
    always: PathSet,
}

impl Model for Many {
    ghost use Rattle.std.specs.Prelude.{List};
    ghost use Rattle.redo_record.specs.declared.deps.Dep.{Dep};
    ghost use Rattle.redo_record.specs.inside.Kinds.{AreByKind};

    ghost Value = { List Dep };

    ghost view = { λ m. m.entries.items };

    ghost invariant = { λ m. AreByKind m.entries.items m.changed m.created m.always };
}

impl Many {
    /// No entries, with room for `capacity` of them. Where they are many, nearly all are of changes.
    fn with_capacity(alloc: Global, capacity: usize) -> Result<Many, AllocError>
        ensures { IfOk result (λ many. many ≡ []) }
    {
        Ok(Many {
            entries: Vec::with_capacity(alloc, capacity)?,
            changed: PathSet::with_capacity(alloc, capacity)?,
            created: PathSet::new(alloc),
            always: PathSet::new(alloc),
        })
    }

    /// The paths of the entries of a kind.
    fn of_kind(&self, kind: DepKind) -> &PathSet
        ensures { result.now ≡ paths_with kind self.now }
    {
        match kind {
            DepKind::Change => &self.changed,
            DepKind::Create => &self.created,
            DepKind::Always => &self.always,
        }
    }

    fn contains(&self, dep: &Dep) -> bool
        ensures { result ≡ is_entered self.now dep.now.kind dep.now.path }
    {
        self.of_kind(dep.kind).contains(&dep.path)
    }

    /// Adds an entry after the others, unless it is there already.
    fn put(&mut self, dep: Dep) -> Result<(), AllocError>
        ensures ok { OnOk result (self.new ≡ with_entry self.old dep.kind dep.path) }
        ensures err { OnErr result (self.new ≡ self.old) }
    {
        self.entries.reserve(1)?;
        let path = dep.path.clone()?;
        let (_, new) = match dep.kind {
            DepKind::Change => self.changed.insert(path)?,
            DepKind::Create => self.created.insert(path)?,
            DepKind::Always => self.always.insert(path)?,
        };
        if new {
            self.entries.push_reserved(dep);
        }
        Ok(())
    }

    fn as_slice(&self) -> &[Dep]
        ensures { result.now ≡ self.now }
    {
        &self.entries
    }
}

/// Distinct entries in the order of their first mention. In a contract it is the list of them.
#[derive(Drop)]
pub struct Deps {
    store: Store,
}

impl Model for Deps {
    ghost use Rattle.std.specs.Prelude.{List};
    ghost use Rattle.redo_record.specs.declared.deps.Dep.{Dep};
    ghost use Rattle.redo_record.specs.Entries.{AreOnce};
    ghost use Rattle.redo_record.specs.inside.Stored.{stored};

    ghost Value = { List Dep };

    ghost view = { λ d. stored d.store };

    ghost invariant = { λ d. AreOnce (stored d.store) };
}

impl Deps {
    /// No entries.
    pub fn new(alloc: Global) -> Deps
        ensures { result ≡ [] }
    {
        Deps {
            store: Store::Few(Vec::new(alloc)),
        }
    }

    /// Reserves exact room for `additional` more entries, unless there are more than 16 already.
    pub fn reserve(&mut self, additional: usize) -> Result<(), AllocError>
        ensures { self.new ≡ self.old }
    {
        if let Store::Few(entries) = &mut self.store {
            if additional <= FEW.saturating_sub(entries.len()) {
                return entries.reserve_exact(additional);
            }
            let alloc = *entries.allocator();
            let many = copied(alloc, entries, entries.len().saturating_add(additional))?;
            self.store = Store::Many(Box::new(alloc, many)?);
        }
        Ok(())
    }

    /// Adds an entry after the others, unless it is there already.
    pub fn insert(&mut self, dep: Dep) -> Result<(), AllocError>
        ensures ok { OnOk result (self.new ≡ with_entry self.old dep.kind dep.path) }
        ensures err { OnErr result (self.new ≡ self.old) }
    {
        match &mut self.store {
            Store::Few(entries) => {
                if entries.len() < FEW {
                    return add(entries, dep);
                }
                let many = Box::new(*entries.allocator(), copied_with(entries, dep)?)?;
                self.store = Store::Many(many);
            }
            Store::Many(entries) => entries.put(dep)?,
        }
        Ok(())
    }

    /// Removes all entries. If they were few, their room is kept.
    pub fn clear(&mut self)
        ensures { self.new ≡ [] }
    {
        match &mut self.store {
            Store::Few(entries) => entries.clear(),
            Store::Many(many) => {
                self.store = Store::Few(Vec::new(*many.entries.allocator()));
            }
        }
    }

    pub fn contains(&self, dep: &Dep) -> bool
        ensures { result ≡ is_entered self.now dep.now.kind dep.now.path }
    {
        match &self.store {
            Store::Few(entries) => is_among(entries, dep),
            Store::Many(entries) => entries.contains(dep),
        }
    }

    pub fn len(&self) -> usize
        ensures { result ≡ length self.now }
    {
        self.as_slice().len()
    }

    pub fn is_empty(&self) -> bool
        ensures { result ≡ (length self.now == 0) }
    {
        self.len() == 0
    }

    /// No entry occurs twice.
    pub fn each_once(&self)
        ensures { AreOnce self.now }
    {
        // Reading a field brings the invariant into the proof. Nothing runs.
        let _ = &self.store;
    }

    pub fn as_slice(&self) -> &[Dep]
        ensures { result.now ≡ self.now }
    {
        match &self.store {
            Store::Few(entries) => entries,
            Store::Many(entries) => entries.as_slice(),
        }
    }
}

/// Whether an entry is in a list.
fn is_among(entries: &[Dep], dep: &Dep) -> bool
    ensures { result ≡ is_entered entries.now dep.now.kind dep.now.path }
{
    for entry in entries {
        if dep == entry {
            return true;
        }
    }
    false
}

/// Appends an entry to a list, unless it is there already.
fn add(entries: &mut Vec<Dep>, dep: Dep) -> Result<(), AllocError>
    requires { AreOnce entries.old.items }
    ensures ok { OnOk result (entries.new.items ≡ with_entry entries.old.items dep.kind dep.path) }
    ensures err { OnErr result (entries.new.items ≡ entries.old.items) }
    ensures once { AreOnce entries.new.items }
{
    if !is_among(entries, &dep) {
        entries.push(dep)?;
    }
    Ok(())
}

/// Copies of the entries, with one more after them unless it is there already.
fn copied_with(entries: &Vec<Dep>, dep: Dep) -> Result<Many, AllocError>
    requires { AreOnce entries.now.items }
    ensures { IfOk result (λ many. many ≡ with_entry entries.now.items dep.kind dep.path) }
{
    let mut many = copied(*entries.allocator(), entries, 2 * FEW)?;
    many.put(dep)?;
    Ok(many)
}

/// Copies of the entries, with room for `capacity` entries.
fn copied(alloc: Global, entries: &[Dep], capacity: usize) -> Result<Many, AllocError>
    requires { AreOnce entries.now }
    ensures { IfOk result (λ many. many ≡ entries.now) }
{
    let mut many = Many::with_capacity(alloc, capacity)?;
    for entry in entries {
        many.put(entry.clone()?)?;
    }
    Ok(many)
}

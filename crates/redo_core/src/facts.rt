//! What is known of the paths that a script asked for.
ghost use Rattle.std.specs.Prelude.{◌≡◌, [], OnOk, bytes_eq, option_copied};
ghost use Rattle.std.specs.Map.{lookup};
ghost use Rattle.redo_core.specs.inside.Works.{told_in, known_in, few_known, AddsFact};

use crate::fact::Fact;
use redo_names::PathMap;
use redo_path::Path;
use redo_record::{Dep, Deps, Outcome};
use redo_step::Answers;
use redo_sync::Known;
use redo_tree::Tree;
use std::alloc::{AllocError, Global};

/// At most this many facts are compared with a path; further ones are looked up.
const FEW: usize = 8;

/// Facts: the first few in a list, the others by their targets.
#[derive(Drop)]
pub(crate) struct Facts {
    few: Vec<Known<Fact>>,
    more: Option<Box<PathMap<Known<Fact>>>>,
    /// What the target's check asked for before its script was begun. There is a fact for each.
    pub(crate) asked: Deps,
}

impl Facts {
    /// No facts.
    pub(crate) fn new(alloc: Global) -> Facts
        ensures empty { known_in result ≡ [] }
        ensures asked { result.asked ≡ [] }
    {
        Facts {
            few: Vec::new(alloc),
            more: None,
            asked: Deps::new(alloc),
        }
    }

    /// The allocator of the facts.
    pub(crate) fn allocator(&self) -> Global {
        *self.few.allocator()
    }

    /// What the target's check asked for.
    pub(crate) fn into_asked(self) -> Deps
        ensures { result ≡ self.asked }
    {
        self.asked
    }

    /// Whether one of the first few targets or sources has a file of at least `least` bytes.
    pub(crate) fn has_file_of(&self, sources: &Tree, least: usize) -> bool {
        'facts: for known in &self.few {
            let fact = known.read();
            let is_large = match fact.outcome() {
                Outcome::Source => has_file_of(sources, fact.target(), least),
                outcome => outcome.file().is_some_and(|bytes| bytes.len() >= least),
            };
            if is_large {
                return true;
            }
        }
        false
    }

    /// Makes room for `additional` more facts.
    pub(crate) fn reserve(&mut self, additional: usize) -> Result<(), AllocError>
        ensures known { known_in self.new ≡ known_in self.old }
        ensures asked { self.new.asked ≡ self.old.asked }
    {
        let room = FEW.saturating_sub(self.few.len());
        self.few.reserve(additional.min(room))?;
        if additional > room && self.more.is_none() {
            let alloc = self.allocator();
            let more = PathMap::with_capacity(alloc, additional - room)?;
            self.more = Some(Box::new(alloc, more)?);
        }
        Ok(())
    }

    /// Adds a fact.
    pub(crate) fn add(&mut self, fact: Known<Fact>) -> Result<(), AllocError>
        ensures { OnOk result (AddsFact fact.value self.old self.new) }
    {
        if self.few.len() < FEW {
            self.few.push(fact)?;
            return Ok(());
        }
        let target = fact.read().target().clone()?;
        match &mut self.more {
            Some(more) => {
                more.insert(target, fact)?;
            }
            None => {
                let alloc = *self.few.allocator();
                let mut more = Box::new(alloc, PathMap::new(alloc))?;
                more.insert(target, fact)?;
                self.more = Some(more);
            }
        }
        Ok(())
    }
}

/// Whether a tree has a file of at least `least` bytes at a path.
pub(crate) fn has_file_of(tree: &Tree, path: &Path, least: usize) -> bool {
    tree.file(path).is_some_and(|bytes| bytes.len() >= least)
}

/// Whether a tree has such a file for one of the first entries of a record.
pub(crate) fn is_any_large(tree: &Tree, deps: &[Dep], least: usize) -> bool {
    let first = &deps[..deps.len().min(FEW)];
    for dep in first {
        if has_file_of(tree, &dep.path, least) {
            return true;
        }
    }
    false
}

/// What some facts tell of a path.
fn told_of<'a>(facts: &'a [Known<Fact>], path: &Path) -> Option<&'a Outcome>
    ensures { option_copied result ≡ lookup (bytes_eq path.now) (few_known facts.now) }
{
    for fact in facts {
        let fact = fact.read();
        if fact.target() == path {
            return Some(fact.outcome());
        }
    }
    None
}

impl Answers for Facts {
    ghost use Rattle.redo_core.specs.inside.Works.{told_in};

    ghost ask = { told_in };

    fn answer(&self, path: &Path) -> Option<&Outcome> {
        match &self.more {
            Some(more) => match more.get(path) {
                Some(fact) => Some(fact.read().outcome()),
                None => told_of(&self.few, path),
            },
            None => told_of(&self.few, path),
        }
    }
}

//! A hint by which the records that name a path are found quickly. Whoever uses it looks at each record that it finds,
//! and then at all others, so no contract rests on it.

use crate::named::path_in;
use redo_book::BookRecord;
use redo_names::PathSet;
use redo_path::Path;
use std::alloc::{AllocError, Global};

/// Which records, by their numbers, name each path.
#[derive(Drop)]
pub(crate) struct Index {
    paths: PathSet,
    users: Vec<Vec<usize>>,
}

impl Index {
    /// The index of these records.
    pub(crate) fn of(alloc: Global, records: &[BookRecord]) -> Result<Index, AllocError> {
        let mut index = Index {
            paths: PathSet::new(alloc),
            users: Vec::new(alloc),
        };
        for (number, made) in records.iter().enumerate() {
            index.add(alloc, number, made)?;
        }
        Ok(index)
    }

    /// Adds a record with its number.
    fn add(&mut self, alloc: Global, number: usize, made: &BookRecord) -> Result<(), AllocError> {
        for entry in &made.entries {
            if let Some(path) = path_in(entry) {
                self.add_user(alloc, path, number)?;
            }
        }
        Ok(())
    }

    /// Notes that the record of a number names a path.
    fn add_user(&mut self, alloc: Global, path: &Path, number: usize) -> Result<(), AllocError> {
        let (at, new) = self.paths.insert(path.clone()?)?;
        if new {
            self.users.push(Vec::new(alloc))?;
        }
        if let Some(users) = self.users.get_mut(at) {
            users.push(number)?;
        }
        Ok(())
    }

    /// The numbers of the records that name a path.
    pub(crate) fn users(&self, path: &Path) -> &[usize] {
        match self.paths.number_of(path) {
            Some(at) => match self.users.get(at) {
                Some(users) => users.as_slice(),
                None => &[],
            },
            None => &[],
        }
    }
}

//! Maps from paths.

ghost use Rattle.std.specs.Prelude.{◌≡◌, ◌==◌, ◌<◌, ◌^◌, ◌++◌, ◌∷◌, [], ℕ, List, Some, None, IfOk, IfSome, OnErr, OnOk};
ghost use Rattle.std.specs.Prelude.{is_some, length, bytes_eq, option_copied, option_map, slice_get, if◌then◌else◌};
ghost use Rattle.std.specs.List.{zip};
ghost use Rattle.std.specs.Map.{keys_of, lookup};
ghost use Rattle.redo_names.specs.Paths.{AreDistinct};

use crate::PathSet;
use redo_path::Path;
use std::alloc::{AllocError, Global};
use std::marker::Model;
use std::mem;

/// Paths in the order of insertion, each with a value. In a contract it is the list of the pairs. A look-up takes few
/// steps, as in a [`PathSet`].
#[derive(Drop)]
pub struct PathMap<T> {
    paths: PathSet,
    values: Vec<T>,
}

impl<T> Model for PathMap<T> {
    ghost use Rattle.std.specs.Prelude.{◌≡◌, List, ℕ, length};
    ghost use Rattle.std.specs.List.{zip};
    ghost use Rattle.redo_names.specs.Paths.{AreDistinct};

    ghost Value = { List (List ℕ × T) };

    ghost view = { λ m. zip m.paths m.values.items };

    ghost invariant = { λ m. (length m.paths ≡ length m.values.items) × AreDistinct m.paths };
}

impl<T> PathMap<T> {
    /// No paths. Needs no memory.
    pub fn new(alloc: Global) -> PathMap<T>
        ensures { result ≡ [] }
    {
        PathMap {
            paths: PathSet::new(alloc),
            values: Vec::new(alloc),
        }
    }

    /// No paths, with room for `capacity` of them. The map grows when it gets more.
    pub fn with_capacity(alloc: Global, capacity: usize) -> Result<PathMap<T>, AllocError>
        ensures { IfOk result (λ map. map ≡ []) }
    {
        Ok(PathMap {
            paths: PathSet::with_capacity(alloc, capacity)?,
            values: Vec::with_capacity(alloc, capacity)?,
        })
    }

    /// How many paths there are.
    pub fn len(&self) -> usize
        ensures count { result ≡ length self.now }
        ensures small { result < 2 ^ 63 }
    {
        self.paths.len()
    }

    pub fn is_empty(&self) -> bool
        ensures { result ≡ (length self.now == 0) }
    {
        self.len() == 0
    }

    /// The number of the path with this text, from 0 in the order of insertion; `None` if it isn't in the map.
    pub fn number_by_text(&self, text: &[u8]) -> Option<usize>
        ensures found { is_some result ≡ is_some (lookup (bytes_eq text.now) self.now) }
        ensures within { IfSome result (λ n. n < length self.now) }
        ensures value { IfSome result (λ n. option_map (λ e. e.1) (slice_get self.now n) ≡
            lookup (bytes_eq text.now) self.now) }
    {
        self.paths.number_by_text(text)
    }

    /// The path with this number, and its value.
    pub fn at(&self, number: usize) -> (&Path, &T)
        requires { number < length self.now }
        ensures pair { slice_get self.now number ≡ Some (result.0.now, result.1.now) }
        ensures value { lookup (bytes_eq result.0.now) self.now ≡ Some result.1.now }
    {
        (self.paths.at(number), &self.values[number])
    }

    /// The value of a path; `None` if the path isn't in the map.
    pub fn get(&self, path: &Path) -> Option<&T>
        ensures { option_copied result ≡ lookup (bytes_eq path.now) self.now }
    {
        self.get_by_text(path.text())
    }

    /// The value of the path with this text. No [`Path`] has to be made of the text.
    pub fn get_by_text(&self, text: &[u8]) -> Option<&T>
        ensures { option_copied result ≡ lookup (bytes_eq text.now) self.now }
    {
        match self.paths.number_by_text(text) {
            Some(number) => Some(&self.values[number]),
            None => None,
        }
    }

    /// No path is in the map twice.
    pub fn each_once(&self)
        ensures { AreDistinct (keys_of self.now) }
    {
        // Reading a field brings the invariant into the proof. Nothing runs.
        let _ = &self.values;
    }

    /// The paths, and the values, each at the number of its path.
    pub fn into_parts(self) -> (PathSet, Vec<T>)
        ensures whole { self ≡ zip result.0 result.1.items }
        ensures many { length result.0 ≡ length result.1.items }
    {
        (self.paths, self.values)
    }

    /// The map of these paths, each with the value at its number.
    pub fn of_parts(paths: PathSet, values: Vec<T>) -> PathMap<T>
        requires { length paths ≡ length values.items }
        ensures { result ≡ zip paths values.items }
    {
        paths.each_once();
        PathMap { paths, values }
    }

    /// Sets the value of a path. A new path goes after the others; for an old one the previous value is returned. If
    /// memory runs out, the map is unchanged.
    pub fn insert(&mut self, path: Path, value: T) -> Result<Option<T>, AllocError>
    where
        T: Drop,
        ensures old { IfOk result (λ old. old ≡ lookup (bytes_eq path) self.old) }
        ensures updates { OnOk result ((q : List ℕ) → lookup (bytes_eq q) self.new ≡
            (if bytes_eq path q then Some value else lookup (bytes_eq q) self.old)) }
        ensures new { OnOk result (lookup (bytes_eq path) self.old ≡ None → self.new ≡ self.old ++ (path, value) ∷ []) }
        ensures err { OnErr result (self.new ≡ self.old) }
    {
        self.values.reserve(1)?;
        let (number, new) = self.paths.insert(path)?;
        if new {
            self.values.push_reserved(value);
            return Ok(None);
        }
        Ok(Some(mem::replace(&mut self.values[number], value)))
    }
}

//! Cells that are written once and read by any thread.
ghost use Rattle.std.specs.Prelude.{◌≡◌, ◌↔◌, ◌<◌, ℕ, Some, None, length, slice_index};
ghost use Rattle.std.specs.Prelude.{IfOk, IfErr, IfSome, IsTrue, IsSome};
ghost use Rattle.std.specs.Arc.{arc_value};

use crate::knows::Knows;
use once_cell::race::{Note, OnceBox};
use std::alloc::{AllocError, Global};
use std::marker::Model;
use std::sync::Arc;

/// A row of cells, each of which is written at most once. If several threads must agree on a value, each publishes its
/// own, and the first one stays. In a contract a row is the list of its cells' names, which tell whether two values are
/// of one cell.
#[derive(Drop)]
pub struct Cells<T> {
    cells: Vec<OnceBox<T>>,
    alloc: Global,
}

impl<T> Model for Cells<T> {
    ghost use Rattle.std.specs.Prelude.{List, ℕ, map};
    ghost use Rattle.once_cell.specs.Once.{cell_name};

    ghost Value = { List ℕ };

    ghost view = { λ c. map cell_name c.cells.items };
}

/// A value that was published and never changes. If a cell has it, it keeps all cells of that row in memory. It may be
/// sent to another thread. In a contract it is the value, the name of the cell that has it, if one does, and the name
/// of a cell that has been written: that cell, or the one that already had another value.
#[derive(Drop)]
pub struct Known<T> {
    location: Location<T>,
}

/// Where a value is stored.
#[derive(Drop)]
enum Location<T> {
    /// In the cell with this index.
    InCell {
        cells: Arc<Cells<T>>,
        index: usize,
        knows: Knows<T>,
    },
    /// Outside the cell it was meant for, which has another value.
    Beside(Arc<Beside<T>>),
}

/// A value that came too late, and what is known of the cell that was written before.
#[derive(Drop)]
struct Beside<T> {
    value: T,
    knows: Knows<T>,
}

impl<T> Model for Known<T> {
    ghost use Rattle.redo_sync.specs.Shown.{Shown};
    ghost use Rattle.redo_sync.specs.inside.Places.{shown_at, IsPlaced};

    ghost Value = { Shown T };

    ghost view = { λ k. shown_at k.location };

    ghost invariant = { λ k. IsPlaced k.location };
}

impl<T: Drop> Cells<T> {
    /// A row of `count` cells, none of them written.
    pub fn new(alloc: Global, count: usize) -> Result<Arc<Cells<T>>, AllocError>
        ensures { IfOk result (λ c. length (arc_value c) ≡ count) }
    {
        let mut cells = Vec::with_capacity(alloc, count)?;
        for _ in 0..count {
            cells.push(OnceBox::new(alloc))?;
        }
        Ok(Arc::new(alloc, Cells { cells, alloc })?)
    }

    /// Publishes a value in the cell at an index, from 0. Whoever publishes first writes the cell. If the cell already
    /// has a value, that one stays, and the result stores this one outside the cell; [`Known::in_cell`] tells which. If
    /// memory runs out, or a row has 2^63 owners, the value is returned.
    pub fn publish(
        cells: &Arc<Cells<T>>,
        index: usize,
        value: T,
    ) -> Result<Known<T>, (T, AllocError)>
        requires { index < length (arc_value cells.now) }
        ensures value { IfOk result (λ k. k.value ≡ value) }
        ensures cell { IfOk result (λ k. IfSome k.cell (λ c. c ≡ slice_index (arc_value cells.now) index)) }
        ensures written { IfOk result (λ k. k.written ≡ slice_index (arc_value cells.now) index) }
        ensures err { IfErr result (λ e. e.0 ≡ value) }
    {
        let owner = match Arc::try_clone(cells) {
            Ok(owner) => owner,
            Err(error) => return Err((value, error)),
        };
        let offered = match Box::new(cells.alloc, value) {
            Ok(offered) => offered,
            Err(refused) => return Err((refused.value, AllocError)),
        };
        let cell = cells.at(index);
        let mut note = cell.note();
        match cell.set_as(offered, &mut note) {
            Ok(()) => Ok(Known::in_cell_of(owner, index, note)),
            Err(back) => Known::beside(cells.alloc, Box::into_inner(back), note),
        }
    }

    /// The value of a cell, if it was written. Needs no memory; fails only if a row has 2^63 owners. No contract says
    /// when the result is `None`: nothing is known of a cell that another thread may write, and what a thread knows to
    /// be written it already has as a [`Known`]. A test shows that a published value is found.
    pub fn look(cells: &Arc<Cells<T>>, index: usize) -> Result<Option<Known<T>>, AllocError>
        requires { index < length (arc_value cells.now) }
        ensures { IfOk result (λ o. IfSome o (λ k. k.cell ≡ Some (slice_index (arc_value cells.now) index))) }
    {
        let cell = cells.at(index);
        let mut note = cell.note();
        if cell.get_as(&mut note).is_none() {
            return Ok(None);
        }
        let owner = Arc::try_clone(cells)?;
        Ok(Some(Known::in_cell_of(owner, index, note)))
    }
}

ghost use Rattle.once_cell.specs.Once.{cell_name};

impl<T> Cells<T> {
    /// The cell at an index.
    fn at(&self, index: usize) -> &OnceBox<T>
        requires { index < length self.now }
        ensures { cell_name result.now ≡ slice_index self.now index }
    {
        &self.cells[index]
    }
}

impl<T: Drop> Known<T> {
    /// The value that a note knows to be in the cell at an index.
    fn in_cell_of(cells: Arc<Cells<T>>, index: usize, note: Note<T>) -> Known<T>
        requires index { index < length (arc_value cells) }
        requires cell { note.cell ≡ slice_index (arc_value cells) index }
        requires known { (x : T) × (note.known ≡ Some x) }
        ensures cell { (result.cell ≡ Some note.cell) × (result.written ≡ note.cell) }
        ensures value { note.known ≡ Some result.value }
    {
        let mut note = note;
        let knows = Knows::of(&mut note);
        Known {
            location: Location::InCell {
                cells,
                index,
                knows,
            },
        }
    }

    /// A value stored outside the cell, which a note knows to be written.
    fn beside(alloc: Global, value: T, note: Note<T>) -> Result<Known<T>, (T, AllocError)>
        requires known { (x : T) × (note.known ≡ Some x) }
        ensures cell { IfOk result (λ k. (k.cell ≡ None) × (k.written ≡ note.cell)) }
        ensures value { IfOk result (λ k. k.value ≡ value) }
        ensures err { IfErr result (λ e. e.0 ≡ value) }
    {
        let mut note = note;
        let knows = Knows::of(&mut note);
        match Arc::new(alloc, Beside { value, knows }) {
            Ok(beside) => Ok(Known {
                location: Location::Beside(beside),
            }),
            Err(refused) => Err((refused.value.value, AllocError)),
        }
    }
}

impl<T> Known<T> {
    /// A note that knows the value, if a cell has it.
    fn note(&self) -> Option<Note<T>>
        ensures some { IsSome result ↔ IsSome self.now.cell }
        ensures known { IfSome result (λ n. (self.now.cell ≡ Some n.cell) × (n.known ≡ Some self.now.value)) }
    {
        match &self.location {
            Location::InCell {
                cells,
                index,
                knows,
            } => {
                let mut note = cells.at(*index).note();
                knows.tell(&mut note);
                Some(note)
            }
            Location::Beside(_) => None,
        }
    }

    /// The value.
    pub fn read(&self) -> &T
        ensures { result.now ≡ self.now.value }
    {
        match &self.location {
            Location::InCell {
                cells,
                index,
                knows,
            } => {
                let cell = cells.at(*index);
                let mut note = cell.note();
                knows.tell(&mut note);
                match cell.get_as(&mut note) {
                    Some(value) => value,
                    None => unreachable!(),
                }
            }
            Location::Beside(beside) => &beside.value,
        }
    }

    /// Two values that are in one cell are the same. A law for contracts, which does nothing at run time.
    pub fn meet(&self, other: &Known<T>)
        requires { (c : ℕ) × (self.now.cell ≡ Some c) × (other.now.cell ≡ Some c) }
        ensures { self.now.value ≡ other.now.value }
    {
        if let (Some(mut mine), Some(theirs)) = (self.note(), other.note()) {
            mine.compare(theirs);
        }
    }

    /// Whether the value is in a cell, so that everyone who looks there finds it. A value that was published when the
    /// cell already had one is in none.
    pub fn in_cell(&self) -> bool
        ensures cell { IsTrue result ↔ IsSome self.now.cell }
        ensures written { IfSome self.now.cell (λ c. c ≡ self.now.written) }
    {
        match &self.location {
            Location::InCell { .. } => true,
            Location::Beside(_) => false,
        }
    }

    /// The same value again, for another thread, say. Needs no memory; fails only if a row or a value has 2^63 owners.
    pub fn again(&self) -> Result<Known<T>, AllocError>
        ensures { IfOk result (λ k. k ≡ self.now) }
    {
        match &self.location {
            Location::InCell {
                cells,
                index,
                knows,
            } => {
                let mut note = cells.at(*index).note();
                knows.tell(&mut note);
                let knows = Knows::of(&mut note);
                let cells = Arc::try_clone(cells)?;
                let index = *index;
                Ok(Known {
                    location: Location::InCell {
                        cells,
                        index,
                        knows,
                    },
                })
            }
            Location::Beside(beside) => Ok(Known {
                location: Location::Beside(Arc::try_clone(beside)?),
            }),
        }
    }
}

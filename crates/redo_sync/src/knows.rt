//! What is known of a cell, in a form that works through `&`: a note of `once_cell` needs `&mut`.
ghost use Rattle.std.specs.Prelude.{◌≡◌, ℕ, Some};
ghost use denote.Sharing.{said};
ghost use Rattle.redo_sync.specs.inside.Knows.{known_of};

use once_cell::race::Note;
use std::marker::{Model, PhantomData};

/// Evidence that the cell `cell` has the value `value`. It takes no bytes.
pub(crate) struct Knows<T> {
    marker: PhantomData<T>,
    pub ghost cell: { ℕ },
    pub ghost value: { T },
}

impl<T> Model for Knows<T> {
    ghost also_owns = { λ k. known_of T.row k.cell k.value };

    ghost also_shares = { λ k _ κ. said (known_of T.row k.cell k.value) κ };
}

impl<T> Knows<T> {
    /// What a note knows.
    pub fn of(note: &mut Note<T>) -> Knows<T>
        requires { (x : T) × (note.old.known ≡ Some x) }
        ensures { (note.new ≡ note.old) × (result.cell ≡ note.old.cell) × (note.old.known ≡ Some result.value) }
    {
        Knows {
            marker: PhantomData,
        }
    }

    /// Passes this on to a note of the same cell.
    pub fn tell(&self, note: &mut Note<T>)
        requires { note.old.cell ≡ self.now.cell }
        ensures { (note.new.cell ≡ note.old.cell) × (note.new.known ≡ Some self.now.value) }
    {}
}

impl<T> Drop for Knows<T> {
    fn drop(self) {
        let Knows { marker: _ } = self;
    }
}

unsafe impl<T> Send for Knows<T> {}

unsafe impl<T> Sync for Knows<T> {}

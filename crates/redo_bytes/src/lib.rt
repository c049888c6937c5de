//! Byte strings that clones share; short ones are stored in place.
//!
//! A build keeps many short texts: target paths, one-line scripts, one-word files. [`Bytes`] stores up to 22 bytes in
//! itself, so they need no allocation and are copied with it. A longer string is allocated once, and its clones share
//! it.
//!
//! - here: [`Bytes`];
//! - `compare`: equality and order of byte strings, eight bytes at a time.
#![tactic(auto)]

ghost use Rattle.std.specs.Prelude.{◌≡◌, ◌<◌, [], IfNone, IfOk, IfSome, length, nat_eq};
ghost use Rattle.std.specs.Cmp.{partial_equiv_from_equiv};
ghost use Rattle.std.specs.Cmp.Lexicographic.{nat_list_eq_equiv, pointwise};
ghost use Rattle.redo_bytes.specs.inside.Kept.{IsFit, bytes_of};

mod compare;

pub use compare::{are_equal, order_of};
use std::alloc::{AllocError, Global};
use std::fmt;
use std::marker::Model;
use std::sync::ArcSlice;

/// The most bytes that the value itself stores. With 22 it is three words in size.
const SHORT: usize = 22;

/// A short byte string, stored in place, with its length.
#[derive(Clone, Copy)]
struct Short {
    len: u8,
    bytes: [u8; SHORT],
}

/// A byte string, stored in place or shared.
#[derive(Drop)]
enum Kept {
    Short(Short),
    Shared(ArcSlice<u8>),
}

/// An immutable byte string. A clone copies up to 22 bytes and shares a longer string. In a contract it is the list of
/// its bytes.
pub struct Bytes {
    kept: Kept,
}

impl Model for Bytes {
    ghost use Rattle.std.specs.Prelude.{List, ℕ};
    ghost use Rattle.redo_bytes.specs.inside.Kept.{IsKept, bytes_in};

    ghost Value = { List ℕ };

    ghost view = { λ b. bytes_in b.kept };

    ghost invariant = { λ b. IsKept b.kept };
}

impl Short {
    /// Copies the bytes, or returns `None` if there are more than 22.
    fn of(bytes: &[u8]) -> Option<Short>
        ensures fit { IfSome result IsFit }
        ensures few { IfSome result (λ short. bytes_of short ≡ bytes.now) }
        ensures many { IfNone result (22 < length bytes.now) }
    {
        let len = bytes.len();
        if len > SHORT {
            return None;
        }
        let mut copy = [0; SHORT];
        copy[..len].copy_from_slice(bytes);
        Some(Short {
            len: len as u8,
            bytes: copy,
        })
    }

    fn as_slice(&self) -> &[u8]
        requires { IsFit self.now }
        ensures { result.now ≡ bytes_of self.now }
    {
        &self.bytes[..self.len as usize]
    }
}

impl Bytes {
    /// The empty string, which takes no memory.
    pub fn empty() -> Bytes
        ensures { result ≡ [] }
    {
        let none = Short {
            len: 0,
            bytes: [0; SHORT],
        };
        Bytes {
            kept: Kept::Short(none),
        }
    }

    /// Copies the bytes.
    pub fn from_slice(alloc: Global, bytes: &[u8]) -> Result<Bytes, AllocError>
        ensures { IfOk result (λ copy. copy ≡ bytes.now) }
    {
        let kept = match Short::of(bytes) {
            Some(short) => Kept::Short(short),
            None => Kept::Shared(ArcSlice::from_slice(alloc, bytes)?),
        };
        Ok(Bytes { kept })
    }

    /// Takes over the bytes of a vector. If there are at most 22, it copies them and frees the vector.
    pub fn from_vec(bytes: Vec<u8>) -> Result<Bytes, AllocError>
        ensures { IfOk result (λ taken. taken ≡ bytes.items) }
    {
        let kept = match Short::of(&bytes) {
            Some(short) => Kept::Short(short),
            None => Kept::Shared(ArcSlice::from_vec(bytes)?),
        };
        Ok(Bytes { kept })
    }

    /// The bytes, in order.
    pub fn as_slice(&self) -> &[u8]
        ensures { result.now ≡ self.now }
    {
        match &self.kept {
            Kept::Short(short) => short.as_slice(),
            Kept::Shared(bytes) => bytes.as_slice(),
        }
    }
}

// Written by hand so that callers drop a value with one call, without a match on where its bytes are.
impl Drop for Bytes {
    fn drop(self) {
        let Bytes { kept: _kept } = self;
    }
}

impl Clone for Bytes {
    ghost is_clone = { λ bytes copy. copy ≡ bytes };

    fn clone(&self) -> Result<Bytes, AllocError> {
        let kept = match &self.kept {
            Kept::Short(short) => Kept::Short(*short),
            Kept::Shared(bytes) => Kept::Shared(bytes.clone()?),
        };
        Ok(Bytes { kept })
    }
}

impl PartialEq for Bytes {
    ghost eq = { pointwise nat_eq };

    ghost laws = { partial_equiv_from_equiv nat_list_eq_equiv };

    fn eq(&self, other: &Bytes) -> bool {
        are_equal(self.as_slice(), other.as_slice())
    }
}

impl Eq for Bytes {
    ghost laws = { nat_list_eq_equiv };
}

/// Prints the bytes as numbers, as a slice does.
impl fmt::Debug for Bytes {
    fn fmt<W: fmt::Write>(&self, f: &mut fmt::Formatter<W>) -> fmt::Result {
        f.debug_list().entries(self.as_slice()).finish()
    }
}

//! Bytes that were read and not used yet.

ghost use Rattle.std.specs.Prelude.{◌≡◌, ◌<◌, ◌≤◌, ℕ, List, [], length, drop, take, true, false, is_err, Ok, IfOk};
ghost use Rattle.std.specs.Prelude.{OnOk};
ghost use Rattle.std.specs.Io.KnownBytes.{Consumes, IsAtEnd, prepend_known};

use crate::{Broken, ByteIn};
use std::alloc::{AllocError, Global};
use std::marker::Model;

/// How many bytes a reader is asked for in one call.
const PIECE: usize = 65536;

/// Bytes that were read and not used yet. In a contract it is these bytes.
#[derive(Drop)]
pub(crate) struct Held {
    piece: Vec<u8>,
    from: usize,
    to: usize,
}

impl Model for Held {
    ghost Value = { List ℕ };

    ghost view = { λ h. drop h.from (take h.to h.piece.items) };

    ghost invariant = { λ h. (h.from ≤ h.to) × (h.to ≤ length h.piece.items) × (0 < length h.piece.items) };
}

impl Held {
    /// An empty buffer.
    pub(crate) fn new(alloc: Global) -> Result<Held, AllocError>
        ensures { IfOk result (λ held. held ≡ []) }
    {
        let mut piece = Vec::new(alloc);
        piece.resize(PIECE, 0)?;
        Ok(Held {
            piece,
            from: 0,
            to: 0,
        })
    }

    /// The bytes in the buffer.
    pub(crate) fn bytes(&self) -> &[u8]
        ensures { result.now ≡ self.now }
    {
        &self.piece[self.from..self.to]
    }

    /// Drops the first `count` bytes.
    pub(crate) fn skip(&mut self, count: usize)
        requires { count ≤ length self.old }
        ensures { self.new ≡ drop count self.old }
    {
        self.from += count;
    }

    /// Reads a piece if the buffer is empty. Returns `false` at the end of the input, with the buffer empty.
    pub(crate) fn fill<R: ByteIn>(&mut self, reader: &mut R) -> Result<bool, Broken>
        requires { R.has_failed reader.old ≡ false }
        ensures more { result ≡ Ok true → 0 < length self.new }
        ensures end { result ≡ Ok false → (self.new ≡ []) × IsAtEnd (R.left reader.new) }
        ensures bytes { OnOk result (Consumes (prepend_known self.old (R.left reader.old))
            (prepend_known self.new (R.left reader.new)) []) }
        ensures failed { R.has_failed reader.new ≡ is_err result }
    {
        if self.from < self.to {
            return Ok(true);
        }
        let count = reader.read(&mut self.piece)?;
        self.from = 0;
        self.to = count;
        Ok(count > 0)
    }
}

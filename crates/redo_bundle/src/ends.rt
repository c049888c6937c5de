//! The two ends of a bundle: where its bytes come from, and where they go.

ghost use Rattle.std.specs.Prelude.{◌≡◌, ◌≤◌, length, IfOk, is_err, false, List, ℕ, Option, Bool};
ghost use Rattle.std.specs.Io.KnownBytes.{ReadConsumes, WriteAppends};
ghost use Rattle.redo_bundle.specs.Ends.{failed_write};

use std::io::{Read, Write};

/// A call of a reader or a writer failed. The cause isn't kept.
#[derive(Clone, Copy, Debug, PartialEq, Eq)]
pub struct Broken;

/// Gives bytes until its end, or until it fails. After a failure it isn't asked again.
pub trait ByteIn {
    // The bytes that are left, if they are known.
    ghost left: { Self → Option (List ℕ) };
    // Whether a call has failed.
    ghost has_failed: { Self → Bool };

    /// Puts some of the bytes that are left at the front of `buf`, and returns how many. 0 means the end, unless `buf`
    /// is empty.
    fn read(&mut self, buf: &mut [u8]) -> Result<usize, Broken>
        requires { has_failed self.old ≡ false }
        ensures bound { IfOk result (λ n. n ≤ length buf.new) }
        ensures bytes { ReadConsumes (left self.old) (left self.new) result buf.new }
        ensures failed { has_failed self.new ≡ is_err result };

    /// Whether a call has failed.
    fn failed(&self) -> bool
        ensures { result ≡ has_failed self.now };
}

/// Takes bytes until it fails. After a failure it is given nothing.
pub trait ByteOut {
    // The bytes that it holds, if they are known.
    ghost held: { Self → Option (List ℕ) };
    // Whether a call has failed: it returned an error, or took none of some bytes.
    ghost has_failed: { Self → Bool };

    /// Takes some bytes from the front of `buf`, and returns how many. It is a failure to take none of some bytes.
    fn write(&mut self, buf: &[u8]) -> Result<usize, Broken>
        requires { has_failed self.old ≡ false }
        ensures bound { IfOk result (λ n. n ≤ length buf.now) }
        ensures bytes { WriteAppends (held self.old) (held self.new) result buf.now }
        ensures failed { has_failed self.new ≡ failed_write result buf.now };

    /// Whether a call has failed.
    fn failed(&self) -> bool
        ensures { result ≡ has_failed self.now };
}

/// A reader or writer of std that records whether a call has failed. Any error is a failure, whatever its kind; to
/// retry interrupted calls, pass a stream that does.
#[derive(Drop)]
pub struct Plain<S> {
    pub stream: S,
    pub broken: bool,
}

impl<S> Plain<S> {
    /// A stream that hasn't failed yet.
    pub fn new(stream: S) -> Plain<S>
        ensures stream { result.stream ≡ stream }
        ensures works { result.broken ≡ false }
    {
        Plain {
            stream,
            broken: false,
        }
    }
}

impl<S: Read> ByteIn for Plain<S> {
    ghost left = { λ p. S.remaining p.stream };

    ghost has_failed = { λ p. p.broken };

    fn read(&mut self, buf: &mut [u8]) -> Result<usize, Broken> {
        match self.stream.read(buf) {
            Ok(count) => Ok(count),
            Err(_) => {
                self.broken = true;
                Err(Broken)
            }
        }
    }

    fn failed(&self) -> bool {
        self.broken
    }
}

impl<S: Write> ByteOut for Plain<S> {
    ghost held = { λ p. S.contents p.stream };

    ghost has_failed = { λ p. p.broken };

    fn write(&mut self, buf: &[u8]) -> Result<usize, Broken> {
        match self.stream.write(buf) {
            Ok(count) => {
                if count == 0 && !buf.is_empty() {
                    self.broken = true;
                }
                Ok(count)
            }
            Err(_) => {
                self.broken = true;
                Err(Broken)
            }
        }
    }

    fn failed(&self) -> bool {
        self.broken
    }
}

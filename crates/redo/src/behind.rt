//! The writer of a report. It clears the line of progress first, and notes when the reader has gone.

ghost use Rattle.std.specs.Prelude.{◌≡◌, false};

use crate::progress::Progress;
use redo_bundle::{Broken, ByteOut};
use std::io;
use std::io::{ErrorKind, Write};

/// Notes whether the reader of a stream has gone.
#[derive(Drop)]
pub(crate) struct Watched<W> {
    pub(crate) stream: W,
    pub(crate) has_gone: bool,
}

impl<W: Write> Write for Watched<W> {
    ghost contents = { λ w. W.contents w.stream };

    fn write(&mut self, buf: &[u8]) -> io::Result<usize> {
        match self.stream.write(buf) {
            Ok(count) => Ok(count),
            Err(error) => {
                self.has_gone = error.kind() == ErrorKind::BrokenPipe;
                Err(error)
            }
        }
    }

    fn flush(&mut self) -> io::Result<()> {
        self.stream.flush()
    }
}

/// Writes where the line of progress may stand, which is cleared first: report and line may be on one terminal.
#[derive(Drop)]
pub(crate) struct Behind<'a, W> {
    pub(crate) out: W,
    pub(crate) progress: &'a Progress<'a>,
}

impl<W: ByteOut> ByteOut for Behind<'_, W> {
    ghost held = { λ b. W.held b.out };

    ghost has_failed = { λ b. W.has_failed b.out };

    fn write(&mut self, buf: &[u8]) -> Result<usize, Broken> {
        self.progress.clear();
        self.out.write(buf)
    }

    fn failed(&self) -> bool {
        self.out.failed()
    }
}

//! What is said of a fault: pieces of messages.

ghost use Rattle.std.specs.Prelude.{◌≡◌, IfOk};

use crate::shown::{push_shown, takes_column};
use std::alloc::{AllocError, Global};

/// What is wrong, and what to do.
#[derive(Debug, Drop)]
pub(crate) struct Said {
    pub(crate) message: Vec<u8>,
    pub(crate) help: Vec<u8>,
    /// How many bytes before the place are meant, too.
    pub(crate) before: usize,
    /// How many bytes are meant from the place on, if they are more than the place has.
    pub(crate) along: usize,
}

/// At most so many bytes are quoted.
const LONGEST_QUOTED: usize = 80;

/// The first of some bytes, about as many as this. No character is cut in two.
fn front(bytes: &[u8], most: usize) -> &[u8] {
    for back in 0..4 {
        let end = most.saturating_sub(back);
        if end < bytes.len() && takes_column(bytes[end]) {
            return &bytes[..end];
        }
    }
    &bytes[..most.min(bytes.len())]
}

/// Adds shown bytes; of a long text the front.
pub(crate) fn push_word(text: &mut Vec<u8>, bytes: &[u8]) -> Result<(), AllocError> {
    if bytes.len() <= LONGEST_QUOTED {
        return push_shown(text, bytes);
    }
    push_shown(text, front(bytes, LONGEST_QUOTED))?;
    text.extend_from_slice(b"..")
}

/// Adds shown bytes in backquotes; of a long text the front.
pub(crate) fn push_quoted(text: &mut Vec<u8>, bytes: &[u8]) -> Result<(), AllocError> {
    text.push(b'`')?;
    push_word(text, bytes)?;
    text.push(b'`')?;
    Ok(())
}

impl Said {
    /// These words.
    pub(crate) fn words(alloc: Global, message: &[u8], help: &[u8]) -> Result<Said, AllocError> {
        Ok(Said {
            message: copy(alloc, message)?,
            help: copy(alloc, help)?,
            before: 0,
            along: 0,
        })
    }

    /// A quoted word, and what is said of it.
    pub(crate) fn of(
        alloc: Global,
        word: &[u8],
        message: &[u8],
        help: &[u8],
    ) -> Result<Said, AllocError> {
        let mut said = Said {
            message: Vec::new(alloc),
            help: copy(alloc, help)?,
            before: 0,
            along: 0,
        };
        push_quoted(&mut said.message, word)?;
        said.message.extend_from_slice(message)?;
        Ok(said)
    }

    /// The same, of so many bytes before the place, too.
    pub(crate) fn from_before(mut self, count: usize) -> Said {
        self.before = count;
        self
    }

    /// The same, of so many bytes from the place on.
    pub(crate) fn along(mut self, count: usize) -> Said {
        self.along = count;
        self
    }

    /// The same with a quoted word in what to do.
    pub(crate) fn with_help(
        mut self,
        front: &[u8],
        word: &[u8],
        back: &[u8],
    ) -> Result<Said, AllocError> {
        self.help.clear();
        self.help.extend_from_slice(front)?;
        push_quoted(&mut self.help, word)?;
        self.help.extend_from_slice(back)?;
        Ok(self)
    }
}

/// A copy of some bytes.
pub(crate) fn copy(alloc: Global, bytes: &[u8]) -> Result<Vec<u8>, AllocError>
    ensures { IfOk result (λ text. text.items ≡ bytes.now) }
{
    let mut text = Vec::with_capacity(alloc, bytes.len())?;
    text.extend_from_slice(bytes)?;
    Ok(text)
}

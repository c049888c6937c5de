//! Where a run failed, for messages.

use redo_dir::{JournalFault, Left, StoreFault};
use redo_path::Path;
use redo_tree::Content;
use redo_which::{BOOK, JOURNAL};
use std::alloc::Global;
use std::io::ErrorKind;
use thiserror::Error;

/// Where a run failed, for messages: no contract speaks of it. Hand in a new one for each run.
#[derive(Drop)]
pub struct Cause {
    /// The last header line that was read of the bundle, without its newline.
    pub header: Vec<u8>,
    /// The path of what could not be read or stored: in a directory the path below it, which is empty for itself.
    pub place: Vec<u8>,
    /// What is wrong with it.
    pub said: Option<Said>,
}

/// What is wrong with a place of a directory.
#[derive(Clone, Copy, Debug, Error)]
pub enum Said {
    /// The system refused a call, and said this.
    #[error("{0}")]
    System(ErrorKind),
    /// Something stands in the place of the book that is no file.
    #[error("the book has to be a plain file")]
    NoFile,
    /// Something stands in the place of the journal that is no file.
    #[error("the journal has to be a plain file")]
    NoJournalFile,
}

impl Cause {
    /// Nothing is known yet.
    pub fn new(alloc: Global) -> Cause {
        Cause {
            header: Vec::new(alloc),
            place: Vec::new(alloc),
            said: None,
        }
    }

    /// Forgets what was noted: it didn't end the run.
    pub(crate) fn forget(&mut self) {
        self.place.clear();
        self.said = None;
    }

    /// Notes a path, and what is wrong with it.
    pub(crate) fn note(&mut self, path: &Path, said: Said) {
        self.place.clear();
        if self.place.extend_from_slice(path.text()).is_ok() {
            self.said = Some(said);
        }
    }

    /// Notes a path of the top directory, and what the system said of it.
    fn note_text(&mut self, path: &[u8], said: ErrorKind) {
        self.place.clear();
        if self.place.extend_from_slice(path).is_ok() {
            self.said = Some(Said::System(said));
        }
    }

    /// Notes which of these files couldn't be stored, or that the journal or the book couldn't. A path that isn't UTF-8
    /// counts as a name that the system refuses.
    pub(crate) fn note_unstored(&mut self, files: &[(Path, Content)], fault: JournalFault) {
        let (place, said) = match fault {
            JournalFault::Journal(kind) => return self.note_text(JOURNAL, kind),
            JournalFault::File(StoreFault::Device(place, kind)) => (place, kind),
            JournalFault::File(StoreFault::Name(place)) => (place, ErrorKind::InvalidFilename),
            JournalFault::File(StoreFault::Memory(_)) => return,
        };
        match files.get(place) {
            Some((path, _)) => self.note(path, Said::System(said)),
            None => self.note_text(BOOK, said),
        }
    }

    /// Notes which file couldn't be cleared away of what a run has left, or that its book couldn't be put in its place.
    pub fn note_left(&mut self, left: &Left, fault: StoreFault) {
        let StoreFault::Device(place, said) = fault else {
            return;
        };
        let before = if left.book.is_some() { 1 } else { 0 };
        match place.checked_sub(before) {
            Some(place) => {
                if let Some(path) = left.own.get(place) {
                    self.note(path, Said::System(said));
                }
            }
            None => self.note_text(BOOK, said),
        }
    }
}

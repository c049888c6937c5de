//! Exit statuses, and the words on standard error.

use redo_book::BookFault;
use redo_bundle::{Broken, BundleFault};
use redo_line::status::{FAILED, GOOD, INPUT, MEMORY, OUTPUT, TOO_MANY};
use redo_run::{RunDirFault, RunIoFault};
use std::alloc::AllocError;
use std::fmt;

/// The status by whether all went well.
pub(crate) fn of_good(good: bool) -> u8 {
    if good { GOOD } else { FAILED }
}

/// Why a run has no result, in the program's words.
#[derive(Clone, Copy, Debug, PartialEq, Eq)]
pub(crate) enum Fault {
    Bundle(BundleFault),
    Directory,
    /// The previous run's book has its first fault in this line, counted from 1.
    Book(u64),
    TooMany,
    /// Another run is at work in the directory.
    Busy,
    /// There is no book to clean by.
    NoBook,
    /// The directory in which a bundle is to be unpacked isn't empty.
    NotEmpty,
    /// The journal can't be written.
    Journal,
    /// What a broken-off run has left can't be cleared away.
    Left,
    /// A file can't be stored.
    Unstored,
    /// A file can't be removed.
    Unremoved,
    /// A target isn't built, so what it needs isn't known.
    Unbuilt,
    /// Standard output can't be written.
    Output,
    Memory,
}

impl From<AllocError> for Fault {
    fn from(_error: AllocError) -> Fault {
        Fault::Memory
    }
}

impl From<Broken> for Fault {
    fn from(_error: Broken) -> Fault {
        Fault::Output
    }
}

impl From<BundleFault> for Fault {
    fn from(fault: BundleFault) -> Fault {
        match fault {
            BundleFault::Memory => Fault::Memory,
            fault => Fault::Bundle(fault),
        }
    }
}

impl From<BookFault> for Fault {
    fn from(fault: BookFault) -> Fault {
        match fault {
            BookFault::Line(line) => Fault::Book(line),
            BookFault::Memory => Fault::Memory,
        }
    }
}

impl From<RunIoFault> for Fault {
    fn from(fault: RunIoFault) -> Fault {
        match fault {
            RunIoFault::Memory | RunIoFault::Bundle(BundleFault::Memory) => Fault::Memory,
            RunIoFault::Bundle(fault) => Fault::Bundle(fault),
            RunIoFault::Book(line) => Fault::Book(line),
            RunIoFault::TooMany => Fault::TooMany,
            RunIoFault::Device => Fault::Output,
        }
    }
}

impl From<RunDirFault> for Fault {
    fn from(fault: RunDirFault) -> Fault {
        match fault {
            RunDirFault::Load => Fault::Directory,
            RunDirFault::Book(line) => Fault::Book(line),
            RunDirFault::TooMany => Fault::TooMany,
            RunDirFault::Journal => Fault::Journal,
            RunDirFault::Left => Fault::Left,
            RunDirFault::Store(_) => Fault::Unstored,
            RunDirFault::Device => Fault::Output,
            RunDirFault::Memory => Fault::Memory,
        }
    }
}

/// The status after a fault.
pub(crate) fn of_fault(fault: Fault) -> u8 {
    match fault {
        Fault::Bundle(_) | Fault::Directory | Fault::Book(_) => INPUT,
        Fault::Busy | Fault::NoBook | Fault::NotEmpty => INPUT,
        Fault::TooMany => TOO_MANY,
        Fault::Unbuilt => FAILED,
        Fault::Journal | Fault::Left | Fault::Unstored | Fault::Unremoved => OUTPUT,
        Fault::Output => OUTPUT,
        Fault::Memory => MEMORY,
    }
}

impl fmt::Display for Fault {
    fn fmt<W: fmt::Write>(&self, f: &mut fmt::Formatter<W>) -> fmt::Result {
        match self {
            Fault::Bundle(fault) => match fault {
                BundleFault::Line(number) => write!(f, "bundle: line {number}"),
                BundleFault::Path(number, _) => write!(f, "bundle: path {number}"),
                BundleFault::Tree(number, _) => write!(f, "bundle: tree {number}"),
                BundleFault::Truncated => write!(f, "bundle: truncated"),
                BundleFault::Read => write!(f, "bundle: read"),
                BundleFault::Memory => write!(f, "out of memory"),
            },
            Fault::Directory => write!(f, "directory not readable"),
            Fault::Book(line) => write!(f, "book: line {line}"),
            Fault::TooMany => write!(f, "too many targets"),
            Fault::Busy => write!(f, "another run is at work here"),
            Fault::NoBook => write!(f, "no book here"),
            Fault::NotEmpty => write!(f, "directory not empty"),
            Fault::Unremoved => write!(f, "clean failed"),
            Fault::Unbuilt => write!(f, "a target fails, so what it needs isn't known"),
            Fault::Journal => write!(f, "journal not writable"),
            Fault::Left => write!(f, "recovery failed"),
            Fault::Unstored | Fault::Output => write!(f, "output failed"),
            Fault::Memory => write!(f, "out of memory"),
        }
    }
}

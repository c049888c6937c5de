//! Directories: read as trees, and given the files that a build made.
//!
//! [`list_names`] finds what a directory has, [`Names::load`] makes a tree of it with the files that are wanted,
//! [`load_dir`] one with all and [`load_names`] one with none. [`store_files`] puts files into a directory, each whole
//! before it gets its name. What only looks reaches the file system through [`DirView`] alone, and what stores through
//! [`WorkDir`]. [`SystemView`] and [`SystemDir`] are the system's; a test has its own.
//!
//! - `work_dir`: what a run asks of the file system; `changes`: what it changed; `lock`: two runs are kept apart;
//! - `view`: a directory of the system that is looked at; `reading`: what a place leads to, and the bytes of its file;
//! - `system`: one that is changed; `new_files`: files that are made; `waiting`: what is asked between two changes;
//! - `calls`: the single calls that a directory of the system stands on; `system_calls`: those of the system;
//! - `listing`: what a directory has at which paths; `places`: which of its names a tree takes in; `looking`: what they
//!   lead to; `contents`: the files that are read; `loading`: a tree of both;
//! - `storing`: files that are stored; `batches`: which of them together, and by how many threads; `drafts`: how they are
//!   written and named;
//! - `faults`: why a directory was not read, or a file not stored; `unwritten`: why one file was not.
#![tactic(auto)]

mod batches;
mod calls;
mod changes;
mod clearing;
mod contents;
mod drafts;
mod faults;
mod journal;
mod listing;
mod loading;
mod lock;
mod looking;
mod new_files;
mod own;
mod places;
mod reading;
mod storing;
mod system;
mod system_calls;
mod unwritten;
mod view;
mod waiting;
mod work_dir;

pub use calls::{Calls, ClosedFile, NewFile, ReadCalls};
pub use changes::Change;
pub use clearing::{Left, clear};
pub use contents::{Place, Reading, Wanted};
pub use faults::{JournalFault, LoadFault, StoreFault};
pub use journal::{ToStore, store_by_journal};
pub use listing::{Names, list_names};
pub use loading::{load_dir, load_names};
pub use lock::{DirLock, LockFault, Lockable, lock_dir};
pub use own::{Tag, journal_path};
pub use storing::{Writers, store_files};
pub use system::{SystemDir, SystemDraft};
pub use system_calls::{SystemCalls, SystemClosed, SystemNew};
pub use view::SystemView;
pub use work_dir::{DirView, Drafted, Seen, WorkDir};

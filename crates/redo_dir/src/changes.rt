//! What a run changed in a directory.

use redo_path::Path;
use redo_tree::Content;

/// A call that changed a directory, and that was answered well. A directory notes them in their order.
#[derive(Drop)]
pub enum Change {
    /// The journal was written, with this text.
    Journal(Content),
    /// A file got its name: its path, its bytes, and whether it was to take the place of one that had been listed.
    Put(Path, Content, bool),
    /// The journal became the book.
    Finish,
    /// The file at this path was removed.
    Remove(Path),
}

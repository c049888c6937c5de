//! The names that a run passed over.

use bstr::BStr;
use redo_dir::{DirView, Seen, SystemView};
use redo_line::Voice;
use redo_path::{Path, resolve};
use redo_tree::{Entry, Kind, Tree};
use std::alloc::{AllocError, Global};
use std::io;
use std::path::Path as SystemPath;
use std::rt::Runtime;

/// At most this many names are shown.
const MOST: usize = 10;

/// What to do about links.
const LINKS: &[u8] = b"redo follows no link below the top: put the files themselves in its place";

/// Why a name was passed over.
#[derive(Clone, Copy)]
enum Why {
    /// It isn't UTF-8, so its kind isn't known, either.
    NoText,
    /// It can't be part of a path: it holds a control byte, or is too long.
    NoPath,
    /// It names neither a file nor a directory.
    NoFile,
}

/// Why a name in a directory was passed over, if it was.
fn why_passed<D: DirView>(
    alloc: Global,
    dir: &D,
    tree: &Tree,
    above: &Path,
    name: &Option<String>,
) -> io::Result<Option<Why>> {
    let Some(name) = name else {
        return Ok(Some(Why::NoText));
    };
    let Ok(path) = resolve(alloc, above, name.as_bytes()) else {
        return Ok(Some(Why::NoPath));
    };
    if tree.kind(&path) != Kind::Nothing {
        return Ok(None);
    }
    match dir.look(alloc, &path)? {
        Seen::Other => Ok(Some(Why::NoFile)),
        Seen::File(_) | Seen::Directory => Ok(None),
    }
}

/// The path of a name in a directory, for messages.
fn shown(alloc: Global, above: &Path, name: &str) -> Result<Vec<u8>, AllocError> {
    let mut text = Vec::new(alloc);
    text.extend_from_slice(above.text())?;
    if !text.is_empty() {
        text.push(b'/')?;
    }
    text.extend_from_slice(name.as_bytes())?;
    Ok(text)
}

/// The words for a name in a directory that isn't text.
fn words_without_name(alloc: Global, above: &Path) -> Result<String, AllocError> {
    let dir = if above.text().is_empty() {
        BStr::new(b".".as_slice())
    } else {
        BStr::new(above.text())
    };
    format!(in alloc; "a name in {dir:?} was passed over: it isn't UTF-8")
}

/// The words for a name in a directory that was passed over.
fn words(
    alloc: Global,
    above: &Path,
    name: &Option<String>,
    why: Why,
) -> Result<String, AllocError> {
    let Some(name) = name else {
        return words_without_name(alloc, above);
    };
    let path = shown(alloc, above, name)?;
    let path = BStr::new(&path);
    match why {
        Why::NoFile => format!(in alloc;
            "{path:?} was passed over: it is no file and no directory"
        ),
        _ => format!(in alloc; "{path:?} was passed over: no path may have such a name"),
    }
}

/// Whether a link has this name in a directory below the top.
fn is_link<H: Runtime>(
    rt: &H,
    alloc: Global,
    top: &str,
    above: &Path,
    name: &Option<String>,
) -> bool {
    let Some(name) = name else {
        return false;
    };
    let Ok(path) = shown(alloc, above, name) else {
        return false;
    };
    let Ok(text) = str::from_utf8(&path) else {
        return false;
    };
    match SystemPath::new(top).join(alloc, text) {
        Ok(place) => place.as_path().is_symlink(rt),
        Err(_) => false,
    }
}

/// How many names were passed over so far, and whether one of them is a link.
#[derive(Drop)]
struct Passed {
    count: usize,
    has_link: bool,
}

/// A directory whose tree was read, and who is told of the names that were passed over.
#[derive(Drop)]
struct Walk<'a, H> {
    rt: &'a H,
    alloc: Global,
    voice: Voice,
    top: &'a str,
    tree: &'a Tree,
}

impl<'a, H: Runtime> Walk<'a, H> {
    /// Counts a name if it was passed over, and shows it if it is among the first.
    fn note_name<D: DirView>(
        &self,
        dir: &D,
        above: &Path,
        name: &Option<String>,
        passed: &mut Passed,
    ) -> io::Result<()> {
        let Some(why) = why_passed(self.alloc, dir, self.tree, above, name)? else {
            return Ok(());
        };
        passed.count = passed.count.saturating_add(1);
        passed.has_link = passed.has_link || is_link(self.rt, self.alloc, self.top, above, name);
        if passed.count <= MOST {
            self.voice
                .note(self.rt, words(self.alloc, above, name, why)?.as_bytes());
        }
        Ok(())
    }

    /// Does the same with each name of a directory.
    fn note_names_in<D: DirView>(
        &self,
        dir: &D,
        above: &Path,
        passed: &mut Passed,
    ) -> io::Result<()> {
        // One that may not be listed was taken for empty.
        let Ok(names) = dir.list(self.alloc, above) else {
            return Ok(());
        };
        for name in names {
            self.note_name(dir, above, &name, passed)?;
        }
        Ok(())
    }

    /// Does the same with each name in the tree's directories.
    fn note_all<D: DirView>(&self, dir: &D, passed: &mut Passed) -> io::Result<()> {
        for (above, entry) in self.tree.in_order(self.alloc)? {
            if matches!(entry, Entry::Directory) {
                self.note_names_in(dir, above, passed)?;
            }
        }
        Ok(())
    }

    /// Shows how many names weren't shown, and what to do about links.
    fn say_rest(&self, passed: &Passed) -> Result<(), AllocError> {
        if passed.count > MOST {
            let more = passed.count - MOST;
            let words = format!(in self.alloc; "and {more} more were passed over")?;
            self.voice.note(self.rt, words.as_bytes());
        }
        if passed.has_link {
            self.voice.note(self.rt, LINKS);
        }
        Ok(())
    }
}

/// Shows the first names that were passed over when a tree was read, how many more there are, and what to do about
/// links.
fn say_names<H: Runtime>(walk: &Walk<'_, H>) -> io::Result<()> {
    let dir = SystemView::new(walk.rt, walk.top);
    let mut passed = Passed {
        count: 0,
        has_link: false,
    };
    walk.note_all(&dir, &mut passed)?;
    walk.say_rest(&passed)?;
    Ok(())
}

/// Shows the names of a directory that were passed over, if notes are shown. Leaves out the rest once the directory
/// can't be read, or memory runs out.
pub(crate) fn note_names<H: Runtime>(rt: &H, alloc: Global, voice: Voice, top: &str, tree: &Tree) {
    if voice.notes {
        let walk = Walk {
            rt,
            alloc,
            voice,
            top,
            tree,
        };
        let _said = say_names(&walk);
    }
}

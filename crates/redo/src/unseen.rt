//! What wasn't seen of a directory.

use bstr::BStr;
use redo_dir::DirView;
use redo_lenient::LenientDir;
use redo_line::Voice;
use redo_path::Path;
use std::alloc::{AllocError, Global};
use std::rt::Runtime;

/// What wasn't seen of a directory.
#[derive(Drop)]
pub(crate) struct Unseen {
    /// How many names were passed over.
    pub(crate) passed: u64,
    /// What is said of the directories that may not be listed and were taken for empty, if there is one.
    pub(crate) hidden: Option<String>,
}

/// What is said of directories that were taken for empty.
fn words_of<D>(alloc: Global, first: &Path, dir: &LenientDir<D>) -> Result<String, AllocError>
where
    D: DirView,
{
    let path = BStr::new(first.text());
    let more = if dir.hides_more() {
        "; so do others"
    } else {
        ""
    };
    format!(in alloc; "{path:?} may not be listed, and counts as empty{more}")
}

impl Unseen {
    /// What wasn't seen of a directory in which so many names were passed over. Where there is no memory for words, there
    /// are none.
    pub(crate) fn of<D: DirView>(alloc: Global, dir: &LenientDir<D>, passed: u64) -> Unseen {
        let hidden = match dir.hidden() {
            Some(first) => match words_of(alloc, first, dir) {
                Ok(words) => Some(words),
                Err(_) => Some(String::new(alloc)),
            },
            None => None,
        };
        Unseen { passed, hidden }
    }

    /// Of a bundle all is seen.
    pub(crate) fn nothing() -> Unseen {
        Unseen {
            passed: 0,
            hidden: None,
        }
    }

    /// Says it on standard error, the directories only where notes are shown.
    pub(crate) fn note<H: Runtime>(&self, rt: &H, voice: Voice) {
        note_passed(rt, self.passed);
        if let (true, Some(words)) = (voice.notes, &self.hidden) {
            voice.note(rt, words.as_bytes());
        }
    }
}

/// Says how many names of a directory were passed over, if any were.
pub(crate) fn note_passed<H: Runtime>(rt: &H, passed: u64) {
    if passed != 0 {
        let _shown = eprintln!(rt; "redo: {passed} names passed over");
    }
}

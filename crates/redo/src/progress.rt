//! The line that shows how far a build is.

use bstr::BStr;
use redo_core::board::Board;
use redo_line::Voice;
use redo_path::Path;
use redo_run::Observer;
use std::sync::atomic::AtomicU64;
use std::sync::atomic::Ordering::Relaxed;
use std::time::Instant;

/// Nothing is shown before a build has taken this many milliseconds.
const PATIENCE: u64 = 300;

/// The least time between two lines, in milliseconds.
const PAUSE: u64 = 100;

/// The most events that are skipped between two readings of the clock.
const MOST_PASSED: u64 = 64;

/// Shows how far a build is, if that is wanted. Only the thread that has the board reads and writes what is noted
/// here.
#[derive(Drop)]
pub(crate) struct Progress<'a> {
    rt: &'a HostRuntime,
    /// Whether a line is shown.
    is_shown: bool,
    /// When the build began; none if it isn't timed.
    began: Option<Instant>,
    /// How many events to skip between two readings of the clock. A reading may cost more than a short script.
    stride: AtomicU64,
    /// How many events to skip before the next reading.
    passes: AtomicU64,
    /// When the clock was last read, in milliseconds from the beginning.
    looked: AtomicU64,
    /// When the last line was shown; 0 if none was.
    shown: AtomicU64,
}

impl<'a> Progress<'a> {
    /// The progress of a build that begins now, and is timed if `is_timed`.
    pub(crate) fn new(rt: &'a HostRuntime, voice: Voice, is_timed: bool) -> Progress<'a> {
        let began = if is_timed {
            Instant::now(rt).ok()
        } else {
            None
        };
        Progress {
            rt,
            is_shown: voice.progress,
            began,
            stride: AtomicU64::new(1),
            passes: AtomicU64::new(0),
            looked: AtomicU64::new(0),
            shown: AtomicU64::new(0),
        }
    }

    /// How many milliseconds ago the build began, if it is timed.
    pub(crate) fn milliseconds(&self) -> Option<u64> {
        let elapsed = self.began?.elapsed(self.rt).ok()?;
        u64::try_from(elapsed.as_millis()).ok()
    }

    /// Reads the clock, in milliseconds from the beginning, unless this event is skipped. If events follow one
    /// another within a millisecond, skips more of them from now on.
    fn look(&self) -> Option<u64> {
        let passes = self.passes.load(Relaxed);
        if passes > 0 {
            self.passes.store(passes - 1, Relaxed);
            return None;
        }
        let now = self.milliseconds()?;
        let stride = if now > self.looked.load(Relaxed) {
            1
        } else {
            self.stride.load(Relaxed).saturating_mul(2).min(MOST_PASSED)
        };
        self.looked.store(now, Relaxed);
        self.stride.store(stride, Relaxed);
        self.passes.store(stride, Relaxed);
        Some(now)
    }

    /// Whether a line is due at this moment.
    fn is_due(&self, now: u64) -> bool {
        now >= PATIENCE && now.saturating_sub(self.shown.load(Relaxed)) >= PAUSE
    }

    /// Clears the line, if there is one.
    pub(crate) fn clear(&self) {
        if self.shown.load(Relaxed) != 0 {
            self.shown.store(0, Relaxed);
            let _shown = eprint!(self.rt; "\r\x1b[K");
        }
    }
}

impl Observer for Progress<'_> {
    /// Writes the line over the one before. The terminal cuts it at its width.
    fn given_out(&self, board: &Board, target: &Path, _turn: u64) {
        if !self.is_shown {
            return;
        }
        let Some(now) = self.look() else {
            return;
        };
        if self.is_due(now) {
            self.shown.store(now, Relaxed);
            let (decided, seen) = (board.decided(), board.seen());
            let target = BStr::new(target.text());
            let _shown = eprint!(self.rt; "\r\x1b[?7l[{decided}/{seen}] {target}\x1b[K\x1b[?7h");
        }
    }

    fn taken_up(&self, _target: &Path, _turn: u64) {}
}

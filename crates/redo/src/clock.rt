//! The time of day.

use jiff_core::{Offset, Timestamp};
use std::alloc::{AllocError, Global};
use std::rt::Runtime;
use std::time::{Duration, SystemTime};

/// How long ago the year 1970 began, if the clock tells it.
fn since_1970<H: Runtime>(rt: &H) -> Option<Duration> {
    let now = SystemTime::now(rt).ok()?;
    now.duration_since(SystemTime::UNIX_EPOCH).ok()
}

/// Now, if the clock tells it.
fn now<H: Runtime>(rt: &H) -> Option<Timestamp> {
    let seconds = since_1970(rt)?.as_secs();
    Timestamp::from_nanosecond(i128::from(seconds) * 1_000_000_000).ok()
}

/// The text of a time, in UTC, such as `2026-11-30T18:02:11Z`.
fn text_of(alloc: Global, time: Timestamp) -> Result<String, AllocError> {
    let at = Offset::UTC.to_datetime(time);
    let (year, month, day) = (at.date.year, at.date.month, at.date.day);
    let (hour, minute, second) = (at.time.hour, at.time.minute, at.time.second);
    format!(in alloc; "{year:04}-{month:02}-{day:02}T{hour:02}:{minute:02}:{second:02}Z")
}

/// The text of the time of day, if the clock tells it.
pub(crate) fn time_of_day<H: Runtime>(rt: &H, alloc: Global) -> Result<Option<String>, AllocError> {
    match now(rt) {
        Some(time) => Ok(Some(text_of(alloc, time)?)),
        None => Ok(None),
    }
}

//! Lines of a text, and bytes in one line.

ghost use Rattle.std.specs.Prelude.{◌≡◌, ◌≤◌, ◌<◌, length, take};
ghost use Rattle.redo_script.specs.Marks.{line_from, HasLine, IsInLine};
ghost use Rattle.redo_script.specs.Texts.{first_line};

use crate::places::Span;

/// Where this line, counted from 1, begins. If the text has no such line: where the text ends.
#[tactic(auto, using(crate::proofs::MarkLemmas::next_line))]
fn line_start(text: &[u8], line: u64) -> usize
    ensures within { result ≤ length text.now }
    ensures line { HasLine text.now line → line_from 1 (take result text.now) ≡ line }
{
    let mut here = 1;
    for (i, byte) in text.iter().enumerate() {
        if here == line {
            return i;
        }
        if *byte == b'\n' {
            here += 1;
        }
    }
    text.len()
}

/// How many bytes come before the first newline.
#[tactic(auto, using(crate::proofs::MarkLemmas::line_here))]
pub fn line_len(text: &[u8]) -> usize
    ensures is { result ≡ length (first_line text.now) }
    ensures within { result ≤ length text.now }
{
    for (i, byte) in text.iter().enumerate() {
        if *byte == b'\n' {
            return i;
        }
    }
    text.len()
}

/// The bytes from `start` on, at most `len` of them, up to the end of their line.
pub fn clipped(text: &[u8], start: usize, len: usize) -> Span
    requires within { start ≤ length text.now }
    requires some { 0 < len }
    ensures starts { result.start ≡ start }
    ensures line { IsInLine text.now (line_from 1 (take start text.now)) result }
{
    let len = line_len(&text[start..]).min(len);
    Span {
        start,
        end: start + len,
    }
}

/// How many blanks the text begins with.
fn blank_len(text: &[u8]) -> usize {
    for (i, byte) in text.iter().enumerate() {
        if !matches!(byte, b' ' | b'\t') {
            return i;
        }
    }
    text.len()
}

/// The wished bytes, as far as they are in this line of the text. If they don't begin there: the line without its
/// leading blanks.
pub fn in_line(text: &[u8], line: u64, wished: Span) -> Span
    ensures { HasLine text.now line → IsInLine text.now line result }
{
    let start = line_start(text, line);
    let rest = &text[start..];
    let len = line_len(rest);
    if start <= wished.start && wished.start - start < len && wished.start < wished.end {
        return clipped(text, wished.start, wished.end - wished.start);
    }
    clipped(text, start + blank_len(rest).min(len), usize::MAX)
}

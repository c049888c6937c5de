//! The lines of missing candidates.

ghost use Rattle.std.specs.Prelude.{◌≡◌, ◌++◌, ◌∷◌, [], false, flat_map, is_err};
ghost use Rattle.redo_bundle.specs.Bundle.{Writes};
ghost use Rattle.redo_which.specs.Lines.{lines_of};

use redo_bundle::{Broken, ByteOut, write_all, write_parts};
use redo_which::{CandidateRef, Missing, MissingLines, Tail};

/// Writes a line for each missing candidate, in order. All lines but the first are kept in `lines` for the next target;
/// without memory for them they are written one by one.
pub fn write_missing<'a, W: ByteOut>(
    out: &mut W,
    lines: &mut MissingLines<'a>,
    missing: &'a Missing,
) -> Result<(), Broken>
    requires { W.has_failed out.old ≡ false }
    ensures front { lines.new.0 ≡ lines.old.0 }
    ensures writes { Writes (W.held out.old) (W.held out.new) result
        (flat_map (λ path. lines.old.0 ++ path ++ 10 ∷ []) missing.now) }
    ensures failed { W.has_failed out.new ≡ is_err result }
{
    let Some((first, rest)) = missing.split_first() else {
        return Ok(());
    };
    let front = lines.front();
    write_line(out, front, &first)?;
    if lines.keep(&rest).is_err() {
        return write_each(out, front, &rest);
    }
    write_all(out, lines.text())
}

/// Writes the line of each candidate.
fn write_each<W: ByteOut>(out: &mut W, front: &[u8], rest: &Tail<'_>) -> Result<(), Broken>
    requires { W.has_failed out.old ≡ false }
    ensures writes { Writes (W.held out.old) (W.held out.new) result (lines_of front.now rest.now) }
    ensures failed { W.has_failed out.new ≡ is_err result }
{
    for candidate in rest.candidates() {
        write_line(out, front, &candidate)?;
    }
    Ok(())
}

/// Writes the line of a candidate: `front`, the path of its .do file, and a newline.
fn write_line<W: ByteOut>(
    out: &mut W,
    front: &[u8],
    candidate: &CandidateRef<'_>,
) -> Result<(), Broken>
    requires { W.has_failed out.old ≡ false }
    ensures writes { Writes (W.held out.old) (W.held out.new) result (front.now ++ candidate.now.do_file ++ 10 ∷ []) }
    ensures failed { W.has_failed out.new ≡ is_err result }
{
    let (dir, prefix, suffix) = candidate.pieces();
    write_parts(out, &[front, dir, prefix, suffix, b".do\n"])
}

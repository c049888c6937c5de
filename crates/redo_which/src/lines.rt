//! The lines of missing candidates, target after target.

ghost use Rattle.std.specs.Prelude.{◌≡◌, ◌≤◌, ◌+◌, ◌^◌, ◌↔◌, ◌⊎◌, ◌++◌, ◌∷◌, [], IfOk, IsErr, OnErr, OnOk};
ghost use Rattle.std.specs.Prelude.{drop, flat_map, length, map};
ghost use Rattle.redo_which.specs.Lines.{lines_of};

use crate::candidate_ref::CandidateRef;
use crate::missing::{Missing, Tail};
use std::alloc::{AllocError, Global};
use std::marker::Model;
use std::mem;

/// The lines of the missing candidates of one target after another. Most targets that follow one another are neighbours
/// with the same suffix, such as `a.o` and `b.o` in one directory. Then all candidates but the first are the same, and
/// their lines are kept. In a contract it is the front of its lines, and the candidates whose lines are kept.
#[derive(Drop)]
pub struct MissingLines<'a> {
    front: &'a [u8],
    kept: Tail<'a>,
    text: Vec<u8>,
}

impl<'a> Model for MissingLines<'a> {
    ghost use Rattle.std.specs.Prelude.{◌≡◌, List, ℕ};
    ghost use Rattle.redo_which.specs.Candidates.{Place};
    ghost use Rattle.redo_which.specs.Lines.{lines_of};

    ghost Value = { List ℕ × List Place };

    ghost view = { λ l. (l.front.now, l.kept) };

    ghost invariant = { λ l. l.text.items ≡ lines_of l.front.now l.kept };
}

impl<'a> MissingLines<'a> {
    /// Lines with this front. None are kept yet.
    pub fn new(alloc: Global, front: &'a [u8]) -> MissingLines<'a>
        ensures { result ≡ (front.now, []) }
    {
        MissingLines {
            front,
            kept: Tail::none(),
            text: Vec::new(alloc),
        }
    }

    /// What comes before the path in each line.
    pub fn front(&self) -> &'a [u8]
        ensures { result.now ≡ self.now.0 }
    {
        self.front
    }

    /// The lines that are kept, in order.
    pub fn text(&self) -> &[u8]
        ensures { result.now ≡ lines_of self.now.0 self.now.1 }
    {
        &self.text
    }

    /// Keeps the lines of these candidates instead of the old ones. If a quick look shows that they are the same, it
    /// does nothing. If memory runs out, none are kept.
    pub fn keep(&mut self, rest: &Tail<'a>) -> Result<(), AllocError>
        ensures front { self.new.0 ≡ self.old.0 }
        ensures kept { OnOk result (self.new.1 ≡ rest.now) }
        ensures refused { OnErr result (self.new.1 ≡ []) }
    {
        if rest.is_same(&self.kept) {
            return Ok(());
        }
        let none = Vec::new(*self.text.allocator());
        let text = mem::replace(&mut self.text, none);
        self.kept = Tail::none();
        self.text = spelled(self.front, rest, text)?;
        self.kept = rest.again();
        Ok(())
    }

    /// How many bytes the lines of all these candidates take. Those behind the first are kept, also where the sum is
    /// refused; where they themselves are, none are.
    pub fn size(&mut self, missing: &'a Missing) -> Result<usize, AllocError>
        ensures front { self.new.0 ≡ self.old.0 }
        ensures size { IfOk result (λ n. n
            ≡ length (flat_map (λ path. self.old.0 ++ path ++ 10 ∷ []) missing.now)) }
        ensures refused { OnErr result ((self.new.1 ≡ []) ⊎
            (map (λ place. place.do_file) self.new.1 ≡ drop 1 missing.now)) }
    {
        let Some((first, rest)) = missing.split_first() else {
            return Ok(0);
        };
        self.keep(&rest)?;
        let line = add_sizes(self.front.len(), first.size() + 1)?;
        add_sizes(line, self.text.len())
    }
}

/// The sum of two sizes in bytes. A sum that overflows is reported as out of memory.
pub fn add_sizes(first: usize, second: usize) -> Result<usize, AllocError>
    ensures sum { IfOk result (λ sum. sum ≡ first + second) }
    ensures refused { IsErr result ↔ (2 ^ 64 ≤ first + second) }
{
    first.checked_add(second).ok_or(AllocError)
}

/// The lines of these candidates, in a text that is reused.
fn spelled(front: &[u8], rest: &Tail<'_>, mut text: Vec<u8>) -> Result<Vec<u8>, AllocError>
    ensures { IfOk result (λ lines. lines.items ≡ lines_of front.now rest.now) }
{
    text.clear();
    for candidate in rest.candidates() {
        add_line(front, &candidate, &mut text)?;
    }
    Ok(text)
}

/// Appends the line of a candidate.
fn add_line(
    front: &[u8],
    candidate: &CandidateRef<'_>,
    text: &mut Vec<u8>,
) -> Result<(), AllocError>
    ensures { OnOk result (text.new.items ≡ text.old.items ++ (front.now ++ candidate.now.do_file ++ 10 ∷ [])) }
{
    text.extend_from_slice(front)?;
    candidate.spell(text)?;
    text.push(b'\n')?;
    Ok(())
}

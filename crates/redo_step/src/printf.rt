//! What `printf` prints, by printf(1) of POSIX: `%s`, `%%` and the escapes `\n`, `\t`, `\\`.

ghost use Rattle.std.specs.Prelude.{◌≡◌, ◌≤◌, ◌∷◌, IfOk, OnOk, IfSome, IfNone, None, Some, option_map, length};
ghost use Rattle.redo_step.specs.Runs.{or_else, faulted};
ghost use Rattle.redo_step.specs.Formats.{sequence_of, with_piece, pieces_of, takes_operands, once, formatted};
ghost use Rattle.redo_step.specs.Formats.{print_of};
ghost use Rattle.redo_step.specs.inside.Machine.{kept_by};
ghost use Rattle.redo_step.specs.inside.Printing.{HasPlaces, Prints, PrintsOnce};
ghost use Rattle.redo_step.specs.inside.Sink.{Fills};
ghost use Rattle.redo_record.specs.declared.outcome.Why.TheVariants.{Format};

use crate::halt::Halt;
use crate::sink::Sink;
use crate::text::Text;
use redo_record::Why;
use std::alloc::{AllocError, Global};

/// A piece of a format.
#[derive(Clone, Copy, Debug, PartialEq, Eq)]
pub(crate) enum FormatPart {
    /// A byte that stands for itself, or that a sequence stands for.
    Literal(u8),
    /// The place of an operand, `%s`.
    Operand,
}

/// Prints operands by a format, which is used again while operands are left.
pub(crate) fn printf(
    alloc: Global,
    line: u64,
    format: &[u8],
    texts: &[Text],
    sink: &mut Sink,
) -> Result<(), Halt>
    ensures fills { Fills result (or_else (faulted (Format line)) (print_of format.now texts.now)) sink.old sink.new }
    ensures keeps { kept_by result ≡ None }
{
    let Some(pieces) = pieces(alloc, format)? else {
        return Err(Halt::fault(Why::Format(line)));
    };
    if !texts.is_empty() && !takes_operands(&pieces) {
        return Err(Halt::fault(Why::Format(line)));
    }
    print(&pieces, texts, sink)?;
    Ok(())
}

/// The pieces of a format; `None` if it has any other sequence.
fn pieces(alloc: Global, format: &[u8]) -> Result<Option<Vec<FormatPart>>, AllocError>
    ensures { IfOk result (λ pieces. option_map (λ v. v.items) pieces ≡ pieces_of format.now) }
{
    let mut pieces = Vec::new(alloc);
    let mut rest = format;
    while let Some((first, others)) = rest.split_first() {
        let Some((piece, after)) = piece_at(*first, others) else {
            return Ok(None);
        };
        pieces.push(piece)?;
        rest = after;
    }
    Ok(Some(pieces))
}

/// The first piece of a format, and what follows it.
fn piece_at(first: u8, others: &[u8]) -> Option<(FormatPart, &[u8])>
    ensures none { IfNone result (pieces_of (first ∷ others.now) ≡ None) }
    ensures some { IfSome result (λ r. pieces_of (first ∷ others.now) ≡ with_piece (Some r.0) (pieces_of r.1.now)) }
    ensures shorter { IfSome result (λ r. length r.1.now ≤ length others.now) }
{
    match first {
        b'%' | b'\\' => {
            let (second, after) = others.split_first()?;
            let piece = sequence(first, *second)?;
            Some((piece, after))
        }
        _ => Some((FormatPart::Literal(first), others)),
    }
}

/// What a sequence of two bytes stands for. The first is a percent sign or a backslash.
fn sequence(first: u8, second: u8) -> Option<FormatPart>
    ensures { result ≡ sequence_of first second }
{
    match (first, second) {
        (b'%', b's') => Some(FormatPart::Operand),
        (b'%', b'%') => Some(FormatPart::Literal(b'%')),
        (b'\\', b'n') => Some(FormatPart::Literal(b'\n')),
        (b'\\', b't') => Some(FormatPart::Literal(b'\t')),
        (b'\\', b'\\') => Some(FormatPart::Literal(b'\\')),
        _ => None,
    }
}

/// Whether a format has a place for an operand.
fn takes_operands(pieces: &[FormatPart]) -> bool
    ensures { result ≡ takes_operands pieces.now }
{
    for piece in pieces {
        if let FormatPart::Operand = piece {
            return true;
        }
    }
    false
}

/// Prints the format once, and then again while operands are left.
fn print(pieces: &[FormatPart], texts: &[Text], sink: &mut Sink) -> Result<(), AllocError>
    requires { HasPlaces pieces.now texts.now }
    ensures { OnOk result (Prints (formatted pieces.now texts.now) sink.old sink.new) }
{
    let mut left = print_once(pieces, texts, sink)?;
    // Once the output is too long, more rounds change nothing.
    while !left.is_empty() && !sink.is_over {
        left = print_once(pieces, left, sink)?;
    }
    Ok(())
}

/// Prints the format once, and returns the operands that are left.
fn print_once<'t, 'a>(
    pieces: &[FormatPart],
    texts: &'t [Text<'a>],
    sink: &mut Sink,
) -> Result<&'t [Text<'a>], AllocError>
    ensures { IfOk result (λ left. PrintsOnce (once pieces.now texts.now) left.now sink.old sink.new) }
{
    let mut printed = 0;
    for piece in pieces {
        match piece {
            FormatPart::Literal(byte) => sink.add(&[*byte])?,
            FormatPart::Operand => {
                if printed < texts.len() {
                    sink.add(texts[printed].bytes())?;
                    printed += 1;
                }
            }
        }
    }
    Ok(&texts[printed..])
}

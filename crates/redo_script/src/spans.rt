//! Runs of bytes of one kind: how long they are, and what follows them.

ghost use Rattle.std.specs.Prelude.{◌≡◌, ◌≤◌, IfSome, length, take, true};
ghost use Rattle.redo_script.specs.Reading.{Reader, read_on, with_mode};
ghost use Rattle.redo_script.specs.declared.lexer.Mode.TheVariants as modes;
ghost use Rattle.redo_script.specs.Bytes.{is_blank, semicolon};
ghost use Rattle.redo_script.specs.inside.Runs.{is_special, is_quote, all_quotable, all_plain, all_digits};
ghost use Rattle.redo_script.specs.inside.Runs.{begins_with, ends_plainly};
ghost use Rattle.redo_script.specs.inside.Lexer.{with_quoted};

use crate::bytes::is_plain_byte;

/// How many plain bytes the text begins with.
#[tactic(auto, using(crate::proofs::RunLemmas::plain_here))]
pub fn plain_len(text: &[u8]) -> usize
    ensures within { result ≤ length text.now }
    ensures plain { all_plain (take result text.now) ≡ true }
{
    for (i, byte) in text.iter().enumerate() {
        if !is_plain_byte(*byte) {
            return i;
        }
    }
    text.len()
}

// Each byte that has a meaning in single or double quotes, or ends a line, is at its own index; at every other index is
// `.`, which has none.
static SPECIAL_BYTES: [u8; 256] = *b"\
    ..........\n.....................\
    ..\".$..'........................\
    ............................\\...\
    `...............................\
    ................................\
    ................................\
    ................................\
    ................................";

/// Whether a byte has a meaning in single or double quotes, or ends a line.
fn is_special_byte(byte: u8) -> bool
    ensures { result ≡ is_special byte }
{
    SPECIAL_BYTES[byte as usize] != b'.'
}

/// How many bytes the text begins with that are literal in quotes, on one line.
#[tactic(auto, using(crate::proofs::QuotedRunLemmas::quotable_here))]
pub fn quotable_len(text: &[u8]) -> usize
    ensures within { result ≤ length text.now }
    ensures quotable { all_quotable (take result text.now) ≡ true }
{
    for (i, byte) in text.iter().enumerate() {
        if is_special_byte(*byte) {
            return i;
        }
    }
    text.len()
}

fn is_quote_byte(byte: u8) -> bool
    ensures { result ≡ is_quote byte }
{
    matches!(byte, b'\'' | b'"')
}

/// If the text begins with a word that is one pair of quotes around literal bytes: those bytes, and the text after the
/// word.
pub fn quoted_alone(text: &[u8]) -> Option<(&[u8], &[u8])>
    ensures reads { IfSome result (λ split. (r : Reader) → r.mode ≡ modes.Gap →
        read_on (with_quoted r split.0.now) split.1.now ≡ read_on r text.now) }
    ensures within { IfSome result (λ split. length split.1.now ≤ length text.now) }
{
    let [quote, inside @ ..] = text else {
        return None;
    };
    if !is_quote_byte(*quote) {
        return None;
    }
    let (bytes, closing) = inside.split_at(quotable_len(inside));
    let [close, rest @ ..] = closing else {
        return None;
    };
    if *close != *quote || !is_word_end(rest) {
        return None;
    }
    Some((bytes, rest))
}

/// Whether all bytes are digits.
#[tactic(auto, using(crate::proofs::RunLemmas::digits_here))]
pub fn is_number(bytes: &[u8]) -> bool
    ensures { result ≡ all_digits bytes.now }
{
    for byte in bytes {
        if !byte.is_ascii_digit() {
            return false;
        }
    }
    true
}

/// Whether a word of plain bytes ends here.
pub fn is_word_end(rest: &[u8]) -> bool
    ensures { result ≡ ends_plainly rest.now }
{
    matches!(rest, [] | [b' ' | b'\t' | b'\n' | b';', ..])
}

/// Whether the text begins with `;`.
pub fn begins_semicolon(text: &[u8]) -> bool
    ensures { result ≡ begins_with semicolon text.now }
{
    matches!(text, [b';', ..])
}

fn is_blank_byte(byte: u8) -> bool
    ensures { result ≡ is_blank byte }
{
    matches!(byte, b' ' | b'\t')
}

/// The text after leading blanks.
pub fn past_blanks(text: &[u8]) -> &[u8]
    ensures reads { (r : Reader) → r.mode ≡ modes.Gap → read_on r result.now ≡ read_on r text.now }
    ensures within { length result.now ≤ length text.now }
{
    let mut left = text;
    while let [byte, rest @ ..] = left
        && is_blank_byte(*byte)
    {
        left = rest;
    }
    left
}

/// The text from the end of a comment's line on.
pub fn past_comment(text: &[u8]) -> &[u8]
    ensures reads { (r : Reader) → r.mode ≡ modes.Comment → read_on r result.now ≡ read_on r text.now }
    // What comes after it is read as between words.
    ensures gap { (r : Reader) → r.mode ≡ modes.Gap →
        read_on r result.now ≡ read_on (with_mode r modes.Comment) text.now }
    ensures within { length result.now ≤ length text.now }
{
    let mut left = text;
    while let [byte, rest @ ..] = left
        && *byte != b'\n'
    {
        left = rest;
    }
    left
}

//! Digests of contents.

ghost use Rattle.std.specs.List.{list_any};
ghost use Rattle.std.specs.Prelude.{◌≡◌, ◌<◌, ℕ, [], Ok, Some, false, length, not, slice_index, slice_index_or};
ghost use Rattle.hex.specs.Hex.{decode_sized, encode_lower, hex_digit_value, lower_digits};
ghost use Rattle.sha2.specs.Sha256.{sha256};
ghost use Rattle.redo_digest.specs.Digest.{IsDigest, IsState, digest_of, is_other, one_of};

use crate::four::four_digests;
use sha2::{Digest as _, Sha256};
use std::marker::Model;

/// The number of hexadecimal digits of a digest.
pub const DIGITS: usize = 64;

/// The SHA-256 digest of a file's bytes. In a contract it is its 32 bytes.
#[derive(Clone, Copy, Debug, PartialEq, Eq)]
pub struct Digest {
    bytes: [u8; 32],
}

impl Model for Digest {
    ghost use Rattle.std.specs.Prelude.{List, ℕ};

    ghost Value = { List ℕ };

    ghost view = { λ d. d.bytes };

    ghost inverse = { λ bytes. record { bytes = bytes } };
}

impl Digest {
    /// The digest of a file's bytes.
    pub fn of(content: &[u8]) -> Digest
        ensures sha256 { result ≡ sha256 content.now }
        ensures digest { IsDigest result }
    {
        Digest {
            bytes: Sha256::digest(content),
        }
    }

    /// The digests of four contents, made side by side. It takes about as long as 1.6 digests of the longest one, so they
    /// should be about as long. `Fours` finds such contents.
    pub fn of_four(a: &[u8], b: &[u8], c: &[u8], d: &[u8]) -> [Digest; 4]
        ensures { (j : ℕ) → j < 4 → slice_index_or result j [] ≡ sha256 (one_of a.now b.now c.now d.now j) }
    {
        let [first, second, third, fourth] = four_digests(a, b, c, d);
        [
            Digest { bytes: first },
            Digest { bytes: second },
            Digest { bytes: third },
            Digest { bytes: fourth },
        ]
    }

    /// The digest spelled by 64 hexadecimal digits with lower-case letters; `None` for any other word.
    pub fn from_hex(word: &[u8]) -> Option<Digest>
        ensures value { result ≡ digest_of word.now }
        ensures digest { IsState result }
    {
        if word.len() != DIGITS {
            return None;
        }
        if has_other(word) {
            return None;
        }
        let bytes = bytes_of(word);
        Some(Digest { bytes })
    }

    /// Its 64 hexadecimal digits, with lower-case letters.
    pub fn digits(&self) -> [u8; DIGITS]
        ensures { result ≡ encode_lower self.now }
    {
        digits_of(&self.bytes)
    }

    /// The 32 bytes.
    pub fn bytes(&self) -> &[u8]
        ensures bytes { result.now ≡ self.now }
        ensures digest { IsDigest self.now }
    {
        let bytes = self.bytes.as_slice();
        bytes
    }
}

/// The digit of a value.
fn digit_of(value: u8) -> u8
    requires { value < 16 }
    ensures { result ≡ slice_index lower_digits value }
{
    if value < 10 {
        b'0' + value
    } else {
        b'a' - 10 + value
    }
}

/// The digits that spell some bytes. They are computed, as `hex` looks each up in a table, which a processor can't do for
/// many at once; a book has two digests for each target and more.
fn digits_of(bytes: &[u8; 32]) -> [u8; DIGITS]
    ensures { result ≡ encode_lower bytes.now }
{
    let mut digits = [0; DIGITS];
    'bytes: for at in 0..bytes.len() {
        let byte = bytes[at];
        digits[2 * at] = digit_of(byte / 16);
        digits[2 * at + 1] = digit_of(byte % 16);
    }
    digits
}

/// Whether a byte is one of the sixteen digits.
fn is_digit(byte: u8) -> bool
    ensures { result ≡ not (is_other byte) }
{
    matches!(byte, b'0'..=b'9' | b'a'..=b'f')
}

/// Whether the word has a byte that is none of the sixteen digits.
fn has_other(word: &[u8]) -> bool
    ensures { result ≡ list_any is_other word.now }
{
    let mut found = false;
    // No early exit, so that a processor can look at many bytes at once.
    for byte in word {
        found |= !is_digit(*byte);
    }
    found
}

/// The value of a digit.
fn value_of(digit: u8) -> u8
    requires { is_other digit ≡ false }
    ensures value { hex_digit_value digit ≡ Some result }
    ensures small { result < 16 }
{
    if digit < b'a' {
        digit - b'0'
    } else {
        digit - b'a' + 10
    }
}

/// The bytes that digits spell. Digits that are known to be some need no test in the loop, so a processor can read many
/// at once.
fn bytes_of(word: &[u8]) -> [u8; 32]
    requires size { length word.now ≡ 64 }
    requires digits { list_any is_other word.now ≡ false }
    ensures { decode_sized word.now 32 ≡ Ok result }
{
    let mut bytes = [0; 32];
    'bytes: for at in 0..bytes.len() {
        bytes[at] = value_of(word[2 * at]) * 16 + value_of(word[2 * at + 1]);
    }
    bytes
}

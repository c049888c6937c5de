//! Equality and order of byte strings, eight bytes at a time. A build compares paths all the time. They are short, and
//! in order they often share all but their last bytes.

ghost use Rattle.std.specs.Prelude.{◌≡◌, nat_eq};
ghost use Rattle.std.specs.Cmp.Lexicographic.{pointwise, slice_cmp};
ghost use Rattle.std.specs.Ordering.{nat_cmp};

use std::cmp::Ordering;

/// Whether two words of eight bytes are equal.
fn are_words_equal(left: &[u8; 8], right: &[u8; 8]) -> bool
    ensures { result ≡ pointwise nat_eq left.now right.now }
{
    u64::from_be_bytes(*left) == u64::from_be_bytes(*right)
}

/// Which of two words of eight bytes comes first.
fn order_of_words(left: &[u8; 8], right: &[u8; 8]) -> Ordering
    ensures { result ≡ slice_cmp nat_cmp left.now right.now }
{
    u64::from_be_bytes(*left).cmp(&u64::from_be_bytes(*right))
}

/// Whether two byte strings are equal.
pub fn are_equal(left: &[u8], right: &[u8]) -> bool
    ensures { result ≡ pointwise nat_eq left.now right.now }
{
    if left.len() != right.len() {
        return false;
    }
    let (mut left_rest, mut right_rest) = (left, right);
    'words: while let Some((left_word, left_after)) = left_rest.split_first_chunk::<8>() {
        let Some((right_word, right_after)) = right_rest.split_first_chunk::<8>() else {
            break;
        };
        if !are_words_equal(left_word, right_word) {
            return false;
        }
        left_rest = left_after;
        right_rest = right_after;
    }
    are_few_equal(left_rest, right_rest)
}

/// Whether two byte strings are equal, for strings of a few bytes.
fn are_few_equal(left: &[u8], right: &[u8]) -> bool
    ensures { result ≡ pointwise nat_eq left.now right.now }
{
    let Some((left_half, left_after)) = left.split_first_chunk::<4>() else {
        return left == right;
    };
    let Some((right_half, right_after)) = right.split_first_chunk::<4>() else {
        return left == right;
    };
    are_halves_equal(left_half, right_half) && left_after == right_after
}

/// Whether two halves of words, of four bytes, are equal.
fn are_halves_equal(left: &[u8; 4], right: &[u8; 4]) -> bool
    ensures { result ≡ pointwise nat_eq left.now right.now }
{
    u32::from_be_bytes(*left) == u32::from_be_bytes(*right)
}

/// Which of two byte strings comes first: the first pair of different bytes decides, and else the lengths do.
pub fn order_of(left: &[u8], right: &[u8]) -> Ordering
    ensures { result ≡ slice_cmp nat_cmp left.now right.now }
{
    let (mut left_rest, mut right_rest) = (left, right);
    'words: while let Some((left_word, left_after)) = left_rest.split_first_chunk::<8>() {
        let Some((right_word, right_after)) = right_rest.split_first_chunk::<8>() else {
            break;
        };
        let found = order_of_words(left_word, right_word);
        if found.is_ne() {
            return found;
        }
        left_rest = left_after;
        right_rest = right_after;
    }
    left_rest.cmp(right_rest)
}

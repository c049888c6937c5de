//! Which contents are digested side by side.

use crate::four::blocks_of;

/// Contents of up to so many blocks wait for others of as many.
const FEW_BLOCKS: usize = 4;

/// How many classes of lengths longer contents have: those of four quarters from each power of two to the next, from 128
/// bytes on, up to 512 GiB.
const CLASSES: usize = 128;

/// Four contents may be digested side by side, one must be digested alone, or waits for others like it.
#[derive(Clone, Copy, Debug, PartialEq, Eq)]
pub enum Next {
    /// The contents with these numbers.
    Four([usize; 4]),
    /// The content that was added last.
    Alone,
    Waits,
}

/// Contents of about one length. Those that wait are the last ones, `count` modulo 4 of them.
#[derive(Clone, Copy, Debug, PartialEq, Eq)]
struct Alike {
    numbers: [usize; 4],
    count: usize,
}

impl Alike {
    fn new() -> Alike {
        Alike {
            numbers: [0; 4],
            count: 0,
        }
    }

    fn add(&mut self, number: usize) -> Next {
        let place = self.count % 4;
        if place == 0 {
            // They fill up for those that don't come.
            self.numbers = [number; 4];
        }
        self.numbers[place] = number;
        self.count = self.count.wrapping_add(1);
        if place == 3 {
            Next::Four(self.numbers)
        } else {
            Next::Waits
        }
    }

    fn rest(&self) -> Next {
        if self.count % 4 == 0 {
            Next::Waits
        } else {
            Next::Four(self.numbers)
        }
    }
}

/// The class of a length of at least 128. Within a class, lengths differ by a quarter at most.
fn class_of(length: usize) -> usize {
    let power = 63usize
        .saturating_sub(length.leading_zeros() as usize)
        .max(7);
    4 * (power - 7) + (length >> (power - 2)) % 4
}

/// Finds contents that can be digested side by side, among contents that are told by their numbers and lengths. Each waits
/// for others of about its length. What it finds decides on time alone: [`crate::Digest::of_four`] takes any.
#[derive(Clone, Copy, Debug, PartialEq, Eq)]
pub struct Fours {
    /// Those of one block, of two, and so on.
    few: [Alike; FEW_BLOCKS],
    /// Those of more blocks, by the class of their length.
    long: [Alike; CLASSES],
}

impl Fours {
    /// No content waits.
    pub fn new() -> Fours {
        Fours {
            few: [Alike::new(); FEW_BLOCKS],
            long: [Alike::new(); CLASSES],
        }
    }

    /// Takes in the content of this number and length, and tells what is to be digested now.
    pub fn add(&mut self, number: usize, length: usize) -> Next {
        if let blocks @ 1..=FEW_BLOCKS = blocks_of(length) {
            return self.few[blocks - 1].add(number);
        }
        match self.long.get_mut(class_of(length)) {
            Some(alike) => alike.add(number),
            None => Next::Alone,
        }
    }

    /// What still waits of up to four blocks when all contents were added. Fewer than four are filled up by the first of
    /// them. Longer ones are left to be digested alone.
    pub fn rest(&self) -> [Next; FEW_BLOCKS] {
        let [one, two, three, four] = &self.few;
        [one.rest(), two.rest(), three.rest(), four.rest()]
    }
}

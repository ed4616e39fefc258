use crate::words::eight_at;
use std::simd::prelude::*;

// One byte of each key's hash, in the order of a block's entries, eight to a word. Tags are hints: an entry is compared
// before a tag is believed, so no proof depends on tags.
#[derive(Clone, Copy)]
pub(crate) struct Tags {
    words: [u64; WORDS],
}

const WORDS: usize = 8;

// An odd number whose bits have no pattern (from the golden ratio).
const SPREADING: u64 = 0x9e37_79b9_7f4a_7c15;

impl Tags {
    pub(crate) const NONE: Tags = Tags { words: [0; WORDS] };

    // Returns the places that have the tag, as bits.
    pub(crate) fn places_of(&self, tag: u8) -> u64 {
        let tags = u64x8::from_array(self.words).to_le_bytes();
        tags.simd_eq(u8x64::splat(tag)).to_bitmask()
    }

    // Puts a tag in, and moves those behind it.
    pub(crate) fn insert(&mut self, at: usize, tag: u8) {
        let mut before = bytes_before(at);
        let mut carried = (tag as u64) << (at % 8 * 8);
        for word in at / 8..WORDS {
            let tags = self.words[word];
            self.words[word] = tags & before | (tags & !before) << 8 | carried;
            carried = tags >> 56;
            before = 0;
        }
    }

    // Takes a tag out, and moves those behind it.
    pub(crate) fn remove(&mut self, at: usize) {
        let mut before = bytes_before(at);
        for word in at / 8..WORDS {
            let next = if word + 1 < WORDS {
                self.words[word + 1]
            } else {
                0
            };
            let tags = self.words[word];
            self.words[word] = tags & before | tags >> 8 & !before | next << 56;
            before = 0;
        }
    }

    // Returns the tags of the lower half.
    pub(crate) fn lower(&self) -> Tags {
        let [first, second, third, fourth, _, _, _, _] = self.words;
        Tags {
            words: [first, second, third, fourth, 0, 0, 0, 0],
        }
    }

    // Returns the tags of the upper half.
    pub(crate) fn upper(&self) -> Tags {
        let [_, _, _, _, first, second, third, fourth] = self.words;
        Tags {
            words: [first, second, third, fourth, 0, 0, 0, 0],
        }
    }
}

// Returns the bytes of a word that are before a place in it.
fn bytes_before(at: usize) -> u64 {
    !(u64::MAX << (at % 8 * 8))
}

// Returns the tag of a key: the highest byte of a hash of all its bytes.
pub(crate) fn tag_of(key: &[u8]) -> u8 {
    let Some(last) = key.len().checked_sub(8) else {
        return short_tag(key);
    };
    let mut hash = key.len() as u64;
    let mut at = 0;
    while at < last {
        hash = mixed(hash, u64::from_le_bytes(eight_at(key, at)));
        at += 8;
    }
    (mixed(hash, u64::from_le_bytes(eight_at(key, last))) >> 56) as u8
}

// Returns the same for a key with fewer than eight bytes.
fn short_tag(key: &[u8]) -> u8 {
    let mut hash = key.len() as u64;
    for byte in key {
        hash = mixed(hash, *byte as u64);
    }
    (hash >> 56) as u8
}

fn mixed(hash: u64, word: u64) -> u64 {
    (hash.rotate_left(29) ^ word).wrapping_mul(SPREADING)
}

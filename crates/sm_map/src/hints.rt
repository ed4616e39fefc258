use crate::words::eight_at;
use std::alloc::Global;

// For each block, the bytes of its first key after the bytes with which all keys began when they were looked at. They
// are hints: a block is searched before a hint is believed, so no proof depends on hints.
#[derive(Drop)]
pub(crate) struct Hints {
    // How many bytes are skipped.
    skip: usize,
    starts: Vec<Start>,
    // How many blocks were noted, including those for which there was no memory.
    noted: usize,
}

// Thirty-two bytes of a key, as numbers in the order of keys.
#[derive(Clone, Copy)]
struct Start {
    high: u128,
    low: u128,
}

impl Start {
    // Returns the bytes of the key after the first `skip`, with zeros behind the key's end.
    fn of(key: &[u8], skip: usize) -> Start {
        Start {
            high: sixteen_of(key, skip),
            low: sixteen_of(key, skip.saturating_add(16)),
        }
    }

    fn is_at_most(self, other: Start) -> bool {
        (self.high < other.high) | ((self.high == other.high) & (self.low <= other.low))
    }
}

impl Hints {
    pub(crate) fn new(alloc: Global) -> Hints {
        Hints {
            skip: 0,
            starts: Vec::new(alloc),
            noted: 0,
        }
    }

    // Returns how many blocks were noted.
    pub(crate) fn noted(&self) -> usize {
        self.noted
    }

    // Returns whether each noted block is known, and whether the hints tell keys apart that begin with this many equal
    // bytes.
    pub(crate) fn serve(&self, alike: usize) -> bool {
        self.starts.len() == self.noted && self.skip <= alike
    }

    // Returns the block that has the key, if the hints are right.
    pub(crate) fn block_of(&self, key: &[u8]) -> usize {
        if self.starts.len() < 2 {
            return 0;
        }
        let start = Start::of(key, self.skip);
        let mut low = 0;
        let mut size = self.starts.len();
        // The next half is computed, because a branch on it would often be mispredicted.
        while size > 1 {
            let half = size / 2;
            low += half * self.starts[low + half].is_at_most(start) as usize;
            size -= half;
        }
        low
    }

    // Notes a block with its first key. If memory is refused, the block stays unknown.
    pub(crate) fn note(&mut self, at: usize, key: &[u8]) {
        self.noted = self.noted.saturating_add(1);
        if at <= self.starts.len() {
            let start = Start::of(key, self.skip);
            let _ = self.starts.insert(at, start);
        }
    }

    // Forgets a block.
    pub(crate) fn forget(&mut self, at: usize) {
        self.noted = self.noted.saturating_sub(1);
        if at < self.starts.len() {
            self.starts.remove(at);
        }
    }

    // Forgets all blocks. The hints of the blocks that follow skip this many bytes.
    pub(crate) fn restart(&mut self, skip: usize) {
        self.skip = skip;
        self.starts.clear();
        self.noted = 0;
    }
}

// Returns with how many equal bytes two keys begin.
pub(crate) fn alike(first: &[u8], second: &[u8]) -> usize {
    let both = first.len().min(second.len());
    for at in 0..both {
        if first[at] != second[at] {
            return at;
        }
    }
    both
}

// Returns the number of sixteen bytes of a key after the first `skip`, as described at the next function.
fn sixteen_of(key: &[u8], skip: usize) -> u128 {
    (eight_of(key, skip) as u128) << 64 | eight_of(key, skip.saturating_add(8)) as u128
}

// Returns the number of eight bytes of a key after the first `skip`, the most significant first, with zeros behind the
// key's end. If fewer are left, it reads the key's last eight bytes at once, and shifts out those before them.
fn eight_of(key: &[u8], skip: usize) -> u64 {
    let left = key.len().saturating_sub(skip);
    if left >= 8 {
        return u64::from_be_bytes(eight_at(key, skip));
    }
    if left == 0 {
        return 0;
    }
    match key.len().checked_sub(8) {
        Some(last) => u64::from_be_bytes(eight_at(key, last)) << (8 * (8 - left)),
        None => eight_of_few(key.get(skip..).unwrap_or(&[])),
    }
}

// Returns the same for fewer than eight bytes.
fn eight_of_few(bytes: &[u8]) -> u64 {
    let mut number: u64 = 0;
    for place in 0..8 {
        number = number << 8 | bytes.get(place).copied().unwrap_or(0) as u64;
    }
    number
}

//! The only order of keys.

ghost use Rattle.std.specs.Prelude.{◌≡◌, ◌+◌, ◌≤◌, length, take, drop};
ghost use Rattle.std.specs.Slice.Scan.{big_endian};
ghost use Rattle.sm_ranges.specs.KeyOrder.{key_cmp, is_at_most, is_below};

use std::cmp::Ordering;

/// Returns the order of two keys. Their bytes are compared as unsigned numbers, and a proper prefix comes first.
// It compares eight bytes at a time, as numbers. The last eight may overlap those before. We don't use `cmp`, because
// it goes byte by byte through the eight that differ, and the branch at which it stops is often mispredicted.
pub fn compare(first: &[u8], second: &[u8]) -> Ordering
    ensures { result ≡ key_cmp first.now second.now }
{
    let both = first.len().min(second.len());
    if both < 8 {
        return first.cmp(second);
    }
    let last = both - 8;
    let mut at = 0;
    while at < last {
        let (x, y) = (number_at(first, at), number_at(second, at));
        if x != y {
            return x.cmp(&y);
        }
        at += 8;
    }
    let (x, y) = (number_at(first, last), number_at(second, last));
    if x != y {
        return x.cmp(&y);
    }
    first.len().cmp(&second.len())
}

/// Returns whether the first key comes before the second.
pub(crate) fn is_below(first: &[u8], second: &[u8]) -> bool
    ensures { result ≡ is_below first.now second.now }
{
    compare(first, second).is_lt()
}

/// Returns whether the first key comes before the second, or is the same.
pub(crate) fn is_at_most(first: &[u8], second: &[u8]) -> bool
    ensures { result ≡ is_at_most first.now second.now }
{
    compare(first, second).is_le()
}

// Returns the number that the eight bytes from this place on spell, the most significant first.
fn number_at(bytes: &[u8], at: usize) -> u64
    requires { at + 8 ≤ length bytes.now }
    ensures { result ≡ big_endian 0 (take 8 (drop at bytes.now)) }
{
    u64::from_be_bytes([
        bytes[at],
        bytes[at + 1],
        bytes[at + 2],
        bytes[at + 3],
        bytes[at + 4],
        bytes[at + 5],
        bytes[at + 6],
        bytes[at + 7],
    ])
}

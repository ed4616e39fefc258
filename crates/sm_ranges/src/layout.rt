ghost use Rattle.std.specs.Prelude.{◌≡◌, ◌==◌, ◌+◌, ◌<◌, ℕ, IsTrue, Some, length, drop, not, position, slice_get};
ghost use Rattle.std.specs.Prelude.{option_copied, IfOk, OnOk, IfSome, IfNone, IsOkUnless};
ghost use Rattle.std.specs.List.{zip};
ghost use Rattle.sm_ranges.specs.KeyOrder.{is_below};
ghost use Rattle.sm_ranges.specs.Ranges.{Covers, IsLayout, shard_of};
ghost use Rattle.sm_ranges.specs.LayoutFault.{texts_of, first_not_rising, first_too_long, first_layout_fault};

use crate::limits::{MAX_KEY, MAX_SHARDS};
use crate::order::{is_at_most, is_below};
use crate::shard_id::ShardId;
use std::alloc::{AllocError, Global};
use std::marker::Model;
use thiserror::Error;

/// How the key space is cut into shards: shard k has the keys from bound k up to, but without, the next bound. There
/// must be 1 to 4,096 bounds of at most 255 bytes. The first must be empty, and each must be above the one before it.
#[derive(Drop)]
pub struct Layout {
    bounds: Vec<Bound>,
}

impl Model for Layout {
    ghost use Rattle.std.specs.Prelude.{List, ℕ};
    ghost use Rattle.sm_ranges.specs.Ranges.{IsLayout};

    ghost Value = { List (List ℕ) };

    ghost view = { λ layout. layout.bounds.items };

    ghost invariant = { λ layout. IsLayout layout.bounds.items };
}

// The start of a shard. Unlike a key, it may be empty.
#[derive(Drop)]
struct Bound {
    bytes: Vec<u8>,
}

impl Model for Bound {
    ghost use Rattle.std.specs.Prelude.{List, ℕ};

    ghost Value = { List ℕ };

    ghost view = { λ bound. bound.bytes.items };
}

impl Bound {
    fn as_bytes(&self) -> &[u8]
        ensures { result.now ≡ self.now }
    {
        &self.bytes
    }

    fn try_clone(&self, alloc: Global) -> Result<Bound, AllocError>
        ensures { IfOk result (λ bound. bound ≡ self.now) }
    {
        Ok(Bound {
            bytes: Vec::from_slice(alloc, &self.bytes)?,
        })
    }
}

/// Why bounds are not a layout. `at` is the place of a bound, from 0.
#[derive(Clone, Copy, Debug, PartialEq, Eq, Drop, Error)]
pub enum LayoutFault {
    /// There are no bounds.
    #[error("a layout has at least one bound")]
    Empty,
    /// The first bound has a byte or more.
    #[error("the first bound is not empty")]
    FirstNotEmpty,
    /// The bound at `at` is the first that is not above the one before it.
    #[error("bound {at} is not above the one before it")]
    NotRising { at: usize },
    /// The bound at `at` is the first of more than 255 bytes.
    #[error("bound {at} has more than 255 bytes")]
    KeyTooLong { at: usize },
    /// There are more than 4,096 bounds.
    #[error("a layout has at most 4096 bounds")]
    TooMany,
    /// The bounds are a layout, but memory for it was refused.
    #[error("out of memory")]
    NoMemory,
}

impl From<AllocError> for LayoutFault {
    ghost use Rattle.sm_ranges.specs.declared.layout.LayoutFault.TheVariants.{NoMemory};

    ghost from_gives = { λ _ fault. fault ≡ NoMemory };

    fn from(_: AllocError) -> Self {
        LayoutFault::NoMemory
    }
}

impl Layout {
    /// Returns the layout with these bounds. If they break a rule, returns the first fault that applies, in the order
    /// of the faults.
    pub fn new(alloc: Global, bounds: &[&[u8]]) -> Result<Layout, LayoutFault>
        ensures ok { IfOk result (λ layout. layout ≡ texts_of bounds.now) }
        ensures is_layout { OnOk result (IsLayout (texts_of bounds.now)) }

        // If the bounds are a layout, only lack of memory refuses them.
        ensures accepts { IsLayout (texts_of bounds.now) → IsOkUnless result LayoutFault.NoMemory }
        ensures fault { IfSome (first_layout_fault (texts_of bounds.now)) (λ fault. result ≡ Err fault) }
        ensures no_fault { IfNone (first_layout_fault (texts_of bounds.now)) (IsOkUnless result LayoutFault.NoMemory) }
    {
        if let Some(fault) = first_fault(bounds) {
            return Err(fault);
        }
        Ok(Layout {
            bounds: copied(alloc, bounds)?,
        })
    }

    /// Returns the shard of these bytes: the last shard whose bound is at most them. Any bytes have a shard. No clause
    /// counts its comparisons. A test of the same search counts 13 at 4,096 bounds.
    pub fn shard_of(&self, key: &[u8]) -> ShardId
        ensures within { result < length self.now }
        ensures covers { Covers self.now result key.now }
        ensures only { (k : ℕ) → Covers self.now k key.now → k ≡ result }
        ensures value { result ≡ shard_of self.now key.now }
    {
        ShardId::new(last_reached(&self.bounds, key) as u16).unwrap()
    }

    /// Returns whether the key is this shard's. Any bytes may be asked for. It compares only the bounds of this shard.
    pub fn covers(&self, k: ShardId, key: &[u8]) -> bool
        ensures { result ≡ (shard_of self.now key.now == k) }
    {
        is_within(&self.bounds, k, key)
    }

    /// Returns the bound at which a shard begins, and the one at which the next shard begins, if there is one.
    pub fn range(&self, k: ShardId) -> (&[u8], Option<&[u8]>)
        requires { k < length self.now }
        ensures low { slice_get self.now k ≡ Some result.0.now }
        ensures high { slice_get self.now (k + 1) ≡ option_copied result.1 }
    {
        let low = self.bounds[k.index()].as_bytes();
        let high = self.bounds.get(k.index() + 1);
        (low, high.map(Bound::as_bytes))
    }

    /// Returns the number of shards.
    pub fn count(&self) -> usize
        ensures value { result ≡ length self.now }
        ensures is_layout { IsLayout self.now }
    {
        self.bounds.len()
    }

    /// Returns a copy of the layout.
    pub fn try_clone(&self, alloc: Global) -> Result<Layout, AllocError>
        ensures { IfOk result (λ layout. layout ≡ self.now) }
    {
        Ok(Layout {
            bounds: cloned(alloc, &self.bounds)?,
        })
    }
}

// Returns the place of the last bound that is at most the key.
fn last_reached(bounds: &[Bound], key: &[u8]) -> usize
    requires { IsLayout bounds.now }
    ensures within { result < length bounds.now }
    ensures covers { Covers bounds.now result key.now }
    ensures only { (k : ℕ) → Covers bounds.now k key.now → k ≡ result }
    ensures value { result ≡ shard_of bounds.now key.now }
{
    bounds.partition_point(|bound| is_at_most(bound.as_bytes(), key)) - 1
}

// Returns whether the bound at this place is at most the key, and the next bound is above it.
fn is_within(bounds: &[Bound], k: ShardId, key: &[u8]) -> bool
    ensures covers { IsTrue result → Covers bounds.now k key.now }
    ensures only { Covers bounds.now k key.now → IsTrue result }
{
    let Some(low) = bounds.get(k.index()) else {
        return false;
    };
    let next = bounds.get(k.index() + 1);
    is_at_most(low.as_bytes(), key) && next.is_none_or(|high| is_below(key, high.as_bytes()))
}

// Returns the first fault of the bounds, except for lack of memory.
fn first_fault(bounds: &[&[u8]]) -> Option<LayoutFault>
    ensures { result ≡ first_layout_fault (texts_of bounds.now) }
{
    let Some(first) = bounds.first() else {
        return Some(LayoutFault::Empty);
    };
    if !first.is_empty() {
        return Some(LayoutFault::FirstNotEmpty);
    }
    if let Some(at) = first_not_rising(bounds) {
        return Some(LayoutFault::NotRising { at });
    }
    if let Some(at) = first_too_long(bounds) {
        return Some(LayoutFault::KeyTooLong { at });
    }
    if bounds.len() > MAX_SHARDS {
        return Some(LayoutFault::TooMany);
    }
    None
}

fn first_not_rising(bounds: &[&[u8]]) -> Option<usize>
    ensures { result ≡ first_not_rising (texts_of bounds.now) }
{
    first_unordered(bounds).map(|low| low + 1)
}

// Returns the place of the first bound after which a bound comes that is not above it.
fn first_unordered(bounds: &[&[u8]]) -> Option<usize>
    ensures value { result ≡ position (λ pair. not (is_below pair.0.now pair.1.now))
        (zip bounds.now (drop 1 bounds.now)) }
    ensures within { IfSome result (λ low. low < length bounds.now) }
{
    bounds
        .iter()
        .zip(bounds.iter().skip(1))
        .position(|(low, high)| !is_below(low, high))
}

fn first_too_long(bounds: &[&[u8]]) -> Option<usize>
    ensures { result ≡ first_too_long (texts_of bounds.now) }
{
    bounds.iter().position(|bound| bound.len() > MAX_KEY)
}

fn copied(alloc: Global, bounds: &[&[u8]]) -> Result<Vec<Bound>, AllocError>
    ensures { IfOk result (λ copies. copies.items ≡ texts_of bounds.now) }
{
    let mut copies = Vec::with_capacity(alloc, bounds.len())?;
    for bound in bounds {
        copies.push(Bound {
            bytes: Vec::from_slice(alloc, bound)?,
        })?;
    }
    Ok(copies)
}

fn cloned(alloc: Global, bounds: &[Bound]) -> Result<Vec<Bound>, AllocError>
    ensures { IfOk result (λ clones. clones.items ≡ bounds.now) }
{
    let mut clones = Vec::with_capacity(alloc, bounds.len())?;
    for bound in bounds {
        clones.push(bound.try_clone(alloc)?)?;
    }
    Ok(clones)
}
